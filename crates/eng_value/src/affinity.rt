/// What a column or a CAST prefers its values to be (Datatypes In SQLite, section 3). `None` is that of an expression without one.
#[derive(Clone, Copy, PartialEq, Eq)]
pub enum Affinity {
    Integer,
    Numeric,
    Real,
    Text,
    Blob,
    None,
}
