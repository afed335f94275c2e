//! Which texts are rules, and which fault the others have (`texts`).

mod texts;
