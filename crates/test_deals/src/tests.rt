//! Steps of a game that racks fit, and the bounds that they exceed (`steps`), records with the deal that is tried for them
//! (`records`), and records with what settles them (`settling`).

mod records;
mod settling;
mod steps;
