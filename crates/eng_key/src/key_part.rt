// The parts of the keys of rows.
use eng_value::{Blob, Built};

/// How a part of a key orders: the collation of its texts, whether it descends, and whether NULL comes before the other values or
/// behind them, whichever way these go (SELECT, section 4). `host` is the key that a collation of a host gives the text of this very
/// row; it then stands in the place of `coll`.
#[derive(Drop)]
pub struct KeyPart {
    pub coll: Built,
    pub host: Option<Blob>,
    pub desc: bool,
    pub nulls_first: bool,
}
