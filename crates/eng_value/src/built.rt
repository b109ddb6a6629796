/// The collations that are built in (Datatypes In SQLite, section 7): by bytes, by bytes with the letters of ASCII in one case,
/// and by bytes without the spaces at the end.
#[derive(Clone, Copy, PartialEq, Eq)]
pub enum Built {
    Binary,
    NoCase,
    Rtrim,
}
