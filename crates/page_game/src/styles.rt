//! How a page looks, in light and in dark, at each width and on paper.

/// The style of all pages.
pub const STYLE: &str = "\
:root{color-scheme:light dark;--page:#faf8f4;--card:#fff;--ink:#22201c;--faint:#645f57;--line:#ddd7cc;--field:#e4ddcd;--cell:#f6f1e6;--tile:#f7dfa3;--edge:#c9a552;--tile-ink:#2a1e02;--blank:#8a1b63;--new:#b8430a;--dl:#bfe0f2;--tl:#6fb4de;--dw:#f6c9c4;--tw:#e58b82;--prem:#26221d;--good:#1c6b2c;--bad:#a3201c;--open:#785600;--link:#0b5394}\n\
@media(prefers-color-scheme:dark){:root{--page:#15171a;--card:#1e2125;--ink:#ebe8e2;--faint:#a8a49c;--line:#3a3e44;--field:#0c0e10;--cell:#23272b;--tile:#ecd595;--edge:#8d6f2c;--tile-ink:#1d1400;--new:#d0440c;--dl:#29506a;--tl:#1f6a9e;--dw:#6b3835;--tw:#9d3d36;--prem:#f5f3ee;--good:#7fd18f;--bad:#ff9088;--open:#e6c35c;--link:#8cc4ff}}\n\
*{box-sizing:border-box}\n\
html{scroll-padding-top:1rem}\n\
body{margin:0 auto;max-width:70rem;padding:1rem;background:var(--page);color:var(--ink);font:1rem/1.45 system-ui,sans-serif;overflow-wrap:anywhere}\n\
h1{font-size:1.45rem;line-height:1.25;margin:0;font-weight:600}h1 b{font-variant-numeric:tabular-nums}h1 span{color:var(--faint)}\n\
h2{font-size:1rem;margin:0 0 .4rem}\n\
p{margin:.2rem 0}\n\
a{color:var(--link)}\n\
.up{font-size:.9rem}.result{color:var(--faint)}.own{font-size:.9rem}\n\
.verdict{border-left:.4rem solid;background:var(--card);padding:.5rem .8rem;margin:.6rem 0 1rem;border-radius:.3rem;box-shadow:0 0 0 1px var(--line)}\n\
.verdict h2{margin:0}.why{white-space:pre-line;unicode-bidi:plaintext}.likely{margin-top:.5rem}.legal{border-color:var(--good)}.illegal{border-color:var(--bad)}.unsettled{border-color:var(--open)}\n\
.sum{margin:.3rem 0 0;padding-left:1.2rem;font-size:.9rem}\n\
.board{--c:min(2.15rem,calc((100vw - 2.9rem)/15.7));border-collapse:separate;border-spacing:1px;background:var(--field);border-radius:.3rem;padding:2px;font-size:max(calc(var(--c)*.33),.5rem);line-height:1;table-layout:fixed;overflow-wrap:normal}\n\
.board td,.board th{width:var(--c);height:var(--c);padding:0;text-align:center;vertical-align:middle;white-space:nowrap}\n\
.board th{font-weight:400;color:var(--faint)}.board th:first-child,.board tr:first-child>:first-child{width:calc(var(--c)*.7)}.board tr:first-child>*{height:calc(var(--c)*.7)}\n\
.board td{background:linear-gradient(#fff6,#fff0 45%) var(--tile);color:var(--tile-ink);font-weight:600;border-radius:3px;box-shadow:inset 0 -2px 0 var(--edge)}\n\
.board td::first-letter{font-size:calc(var(--c)*.58);font-weight:700;vertical-align:.08em}\n\
.board td:empty,.board .d,.board .t,.board .D,.board .T,.board .s,.board .x{background:var(--cell);color:var(--prem);box-shadow:none;font-weight:400;font-size:min(calc(var(--c)*.42),.72rem)}\n\
.board .d::first-letter,.board .t::first-letter,.board .D::first-letter,.board .T::first-letter,.board .s::first-letter{font-size:1em;font-weight:400;vertical-align:baseline}\n\
.board tr:first-child>td{background:none}\n\
.board .d{background:var(--dl)}.board .t{background:var(--tl)}.board .D{background:var(--dw)}.board .T{background:var(--tw)}\n\
.board tr:nth-child(9)>td:nth-child(9):is(.d,.t,.D,.T,.s){font-size:calc(var(--c)*.6)}\n\
.board .b,.board .m{font-style:italic;color:var(--blank)}\n\
.board .n,.board .m,.board .x{position:relative;z-index:1;box-shadow:0 0 0 2px var(--new),inset 0 -2px 0 var(--edge)}\n\
.board .x{box-shadow:0 0 0 2px var(--new)}\n\
.nav{display:flex;justify-content:space-between;align-items:baseline;gap:.5rem}.nav a,.nav span{padding:.3rem .2rem;text-decoration:none;white-space:nowrap}.nav span{color:var(--faint)}\n\
.now{margin:0 0 .3rem}.key{color:var(--faint);font-size:.82rem}\n\
.rack{margin:.4rem 0 0;display:flex;gap:2px;align-items:center}.rack span{color:var(--faint);margin-right:.4rem;font-size:.85rem}\n\
.rack i{font-style:normal;font-weight:700;background:var(--tile);color:var(--tile-ink);width:1.7em;line-height:1.7em;text-align:center;border-radius:3px;box-shadow:inset 0 -2px 0 var(--edge);font-size:.85rem}\n\
.bag{margin:.4rem 0 0;font-family:ui-monospace,monospace;font-size:.82rem}.bag span{display:block;font-family:system-ui,sans-serif;color:var(--faint)}\n\
.sheet{border-collapse:collapse;width:100%;overflow-wrap:normal;background:var(--card);border-radius:.3rem;box-shadow:0 0 0 1px var(--line)}\n\
.sheet>*>tr>*{padding:.28rem .32rem;text-align:left;vertical-align:baseline;border-top:1px solid var(--line)}\n\
.sheet>thead>tr>*{border-top:0;font-size:.78rem;line-height:1.2;vertical-align:bottom;color:var(--faint);font-weight:600}\n\
.sheet>*>tr>.num{text-align:right;font-variant-numeric:tabular-nums;white-space:nowrap}\n\
.sheet>tbody>tr:hover{background:var(--cell)}\n\
.no,.who,.bp{color:var(--faint)}.who,.play,.bp,.un,.sb{overflow-wrap:break-word}.who{max-width:8rem;overflow-wrap:anywhere}\n\
.play{position:relative}.play a{color:inherit;text-decoration:none;font-weight:600}.play a::after{content:\"\";position:absolute;inset:0}.play a:hover{text-decoration:underline}\n\
.rk{font-family:ui-monospace,monospace;font-size:.82rem;white-space:nowrap}\n\
.back .play a{text-decoration:line-through}.other .play a{font-weight:400;font-style:italic}\n\
.tag{font-size:.72rem;font-weight:600;border:1px solid;border-radius:.8rem;padding:0 .45rem;white-space:nowrap}.bingo{color:var(--good)}.phony,.wrong,.sb,.un{color:var(--bad)}.sb{font-weight:600}\n\
.sheet>tbody>.fault>*{border-top:2px solid var(--bad);border-bottom:2px solid var(--bad)}\n\
.sheet>tbody>.note>td{border-top:0;padding-top:0;font-size:.9rem;font-style:italic;overflow-wrap:anywhere}\n\
.sheet>tbody>tr:target{background:var(--cell);box-shadow:inset .25rem 0 0 var(--new)}\n\
.sheet>*>tr>.pos{display:none}\n\
.sheet>tbody>tr:target>.pos{display:block;position:fixed;z-index:2;background:var(--page);border:0;padding:0;overflow-y:auto}\n\
.sums,footer{color:var(--faint);font-size:.85rem;margin-top:.6rem}\n\
.counts{display:flex;flex-wrap:wrap;gap:.3rem 1.2rem;list-style:none;padding:0;margin:.5rem 0 1rem;font-weight:600}\n\
.is-legal>.vd b,li.is-legal{color:var(--good)}.is-illegal>.vd b,li.is-illegal{color:var(--bad)}.is-unsettled>.vd b,li.is-unsettled{color:var(--open)}.is-none>.vd b,li.is-none{color:var(--faint)}\n\
.index small{color:var(--faint)}.index .gm,.index .pl,.index .ld,.index .vd{overflow-wrap:anywhere}.index .gm,.index .vd{min-width:8rem}.index .pl,.index .ld{min-width:4rem}\n\
.ti,.lk{margin:0;font-size:.85rem}.ti{color:var(--faint)}\n\
@media screen and (min-width:70rem){\n\
.game{padding-left:33.6rem;max-width:none;margin:0;padding-right:max(1.2rem,calc(100vw - 82rem))}\n\
.board{--c:1.95rem}\n\
.end,.sheet>tbody>tr:target>.pos{position:fixed;left:1.2rem;top:1rem;width:31.4rem;max-height:calc(100vh - 2rem)}\n\
html{scroll-padding-top:35vh}.end{overflow-y:auto}.sheet>tbody>tr:target>.pos{height:calc(100vh - 2rem);max-height:none}\n\
.game main{overflow-x:auto;padding:1px}\n\
}\n\
@media screen and (min-width:70rem) and (max-width:92rem){\n\
.game{padding-left:27.8rem}\n\
.board{--c:1.58rem}\n\
.end,.sheet>tbody>tr:target>.pos{width:25.8rem}\n\
.game .sheet{font-size:.88rem}.game .sheet>*>tr>*{padding:.28rem .2rem}\n\
}\n\
@media screen and (max-width:69.99rem){\n\
.game{max-width:46rem}\n\
.end{margin-bottom:1rem}\n\
.sheet>tbody>tr:target>.pos{left:0;right:0;top:0;padding:.2rem .6rem .5rem;box-shadow:0 2px 8px #0006}\n\
tr:target .board{--c:min(2.15rem,calc((100vw - 2.4rem)/15.8),calc(48vh/16));margin:0 auto}\n\
:root:has(tr:target){scroll-padding-top:min(70vh,31rem)}\n\
tr:target .nav a,tr:target .nav span{padding:0 .2rem}tr:target .now{margin:0 0 .1rem}\n\
tr:target .bag{font-size:.75rem;line-height:1.3;margin:.2rem 0 0}tr:target .bag span{display:inline}tr:target .rack{margin:.2rem 0 0}\n\
.game .sheet>thead{display:none}.game .sheet,.game .sheet>tbody{display:block}\n\
.game .sheet>tbody>tr{display:grid;grid-template-columns:2rem minmax(3.6rem,auto) 1fr auto 3.2rem;border-top:1px solid var(--line);padding:.25rem .3rem}\n\
.game .sheet>tbody>tr>td{border:0;padding:.05rem .25rem}\n\
.no{grid-column:1}.game .who{grid-column:2}.play{grid-column:3}.sc{grid-column:4}.to{grid-column:5}\n\
.rk{grid-row:2;grid-column:1/3}.bp{grid-row:2;grid-column:3/5;text-align:right!important;font-size:.85rem}.mo{grid-row:2;grid-column:5;font-size:.85rem}\n\
.un{grid-row:3;grid-column:1/6}.sb{grid-row:4;grid-column:1/6}.un:empty,.sb:empty{display:none}\n\
.rk:not(:empty)::before,.bp:not(:empty)::before,.un:not(:empty)::before,.sb:not(:empty)::before{color:var(--faint);font:400 .75rem system-ui,sans-serif}\n\
.rk:not(:empty)::before{content:\"rack \"}.bp:not(:empty)::before{content:\"best \"}.un:not(:empty)::before{content:\"not in the list: \"}.sb:not(:empty)::before{content:\"should be: \"}\n\
.game .sheet>tbody>.fault{border:2px solid var(--bad)}.sheet>tbody>.note>td{grid-column:1/6}\n\
}\n\
@media screen and (max-width:44rem){\n\
.index .sheet>thead{display:none}.index .sheet,.index .sheet>tbody{display:block}\n\
.index .sheet>tbody>tr{display:grid;grid-template-columns:1fr auto;padding:.35rem .5rem;border-top:1px solid var(--line)}\n\
.index .sheet>tbody>tr>td{border:0;padding:.05rem 0}.index .gm,.index .vd,.index .ld{grid-column:1/3}.index .ld:empty{display:none}\n\
}\n\
@media print{\n\
@page{margin:1.2cm}\n\
html{font-size:8pt}\n\
body{padding:0;max-width:none;color:#000;background:#fff}\n\
.sheet>tbody>tr>.pos,.nav,.up{display:none!important}\n\
.verdict{margin:.3rem 0 .6rem;print-color-adjust:exact;-webkit-print-color-adjust:exact}\n\
.game main{columns:2;column-gap:.6cm}.end{break-inside:avoid;margin-bottom:.6rem}\n\
.board{--c:.53cm;print-color-adjust:exact;-webkit-print-color-adjust:exact}\n\
.sheet{box-shadow:none;font-size:7pt}.sheet>*>tr>*{padding:.02cm .08cm}.sheet>thead>tr>*,.rk{font-size:6pt}.tag{font-size:5.5pt}.sheet tr{break-inside:avoid}\n\
.game .sheet{font-size:6.5pt}.game .sheet>*>tr>*{padding:.02cm .05cm}.bp{font-size:6pt}\n\
.who,.play,.bp,.un,.sb,.note>td{overflow-wrap:anywhere;white-space:normal}.who{max-width:2cm}\n\
}\n";
