//! Which bytes a tree has (`texts`), and some objects of `json_base` (`checking`).

mod checking;
mod texts;
