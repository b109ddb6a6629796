// The instructions.
use crate::{Operand, SchemaChange};
use eng_index::{Bounds, KeyTerm};
use eng_value::{Affinity, BinaryOperator, Blob, Builtin, Cause, Collation, Text, UnaryOperator};
use sqlite_items::Items;

/// An instruction (The SQLite Bytecode Engine). Its operands are numbers of registers, cursors, columns, tables and units,
/// and places in the unit's code; `r` is the registers of the frame, each of which holds a value or is bad. A register, a
/// cursor, a unit or an instruction that is not there never stops the machine: a missing register reads NULL and takes
/// nothing, a cursor that is not open reads NULL and has no row, and behind the last instruction the run ends as at `Halt`.
/// What is bad is carried along, with its causes, until `HaltBad` or the query decides what becomes of it.
/// Operators and functions read operands: a register, what is always the same, or what stands in a row, so that nothing is brought into
/// a register only to be read once.
///
/// Where the table of opcodes numbers the operands, the comment does too: p1, p2, p3, p4 and p5.
#[derive(Drop)]
pub enum Op {
    /// Jumps to `target` (p2).
    Goto {
        target: usize,
    },
    /// Jumps to `target` (p2) where r[`register`] (p1) is true, and on NULL where `on_null` (p3) says so. What is bad never
    /// jumps, nor does what has no truth, such as a text that begins with a REAL.
    If {
        register: u32,
        target: usize,
        on_null: bool,
    },
    /// Jumps to `target` (p2) where r[`register`] (p1) is false, and on NULL where `on_null` (p3) says so. What is bad never
    /// jumps, nor does what has no truth.
    IfNot {
        register: u32,
        target: usize,
        on_null: bool,
    },
    /// Jumps to `target` (p2) where r[`register`] (p1) is NULL. What is bad never jumps.
    IsNull {
        register: u32,
        target: usize,
    },
    /// Jumps to `target` (p2) where r[`register`] (p1) is a value that is not NULL. What is bad never jumps.
    NotNull {
        register: u32,
        target: usize,
    },
    /// Jumps to `target` where r[`register`] is bad.
    IsBad {
        register: u32,
        target: usize,
    },
    /// Ends the run.
    Halt,
    /// Gives up with the causes of r[`register`] where it is bad: the run fails for those that may be named, or, where nothing is said but
    /// that the row is left, the unit answers 1 to the one that waits for it. Where it is good the run ends as at `Halt`.
    HaltBad {
        register: u32,
    },
    /// Runs the unit of number `unit` (p1) in a new frame, with the `count` registers from `first` (p2) on as its arguments.
    /// Its results go to the registers from r[`to`] (p3) on. A unit that is not there leaves NULL.
    Call {
        unit: u32,
        first: u32,
        count: u32,
        to: u32,
    },
    /// Leaves the unit with the `count` registers from `first` (p1) on as its results. In the main unit it ends the run.
    Ret {
        first: u32,
        count: u32,
    },
    /// r[`to`] (p2) is the argument of number `number` (p1).
    Argument {
        number: u32,
        to: u32,
    },
    /// Gives the `count` (p2) registers from `first` (p1) on as a row. One that is bad counts as NULL.
    ResultRow {
        first: u32,
        count: u32,
    },
    /// r[`to`] (p2) is NULL.
    Null {
        to: u32,
    },
    /// r[`to`] (p2) is the integer `value` (p1).
    Integer {
        value: i64,
        to: u32,
    },
    /// r[`to`] (p2) is the text `text` (p4).
    String8 {
        text: Text,
        to: u32,
    },
    /// r[`to`] (p2) is the blob `blob` (p4).
    Blob {
        blob: Blob,
        to: u32,
    },
    /// r[`to`] is bad, for this one cause.
    Bad {
        cause: Cause,
        to: u32,
    },
    /// r[`to`] (p2) is the parameter of number `number` (p1), from 1 on. A parameter that is missing is NULL, and a text or a blob
    /// that is longer than the limit is bad (`TooBig`).
    Variable {
        number: u32,
        to: u32,
    },
    /// r[`to`] (p2) is what r[`from`] (p1) holds, which stays there.
    Copy {
        from: u32,
        to: u32,
    },
    /// r[`register`] (p1) becomes what a column of the affinity (p4) would hold after it was stored there.
    Affinity {
        register: u32,
        affinity: Affinity,
    },
    /// r[`register`] (p1) becomes what a comparison takes it for whose side has the affinity `own` beside one of the affinity `other` (Datatypes
    /// In SQLite, section 4.2), as the value that a search goes by. What is bad stays as it is.
    Beside {
        register: u32,
        other: Affinity,
        own: Affinity,
    },
    /// Goes on where r[`register`] (p1) holds an integer. Else the unit gives up for `Mismatch`, also where the register is bad.
    MustBeInt {
        register: u32,
    },
    /// r[`to`] (p2) is what the operator gives for its operand (p1). It stands for the opcodes of the operators with one operand, as
    /// Not, BitNot and Cast.
    Unary {
        operator: UnaryOperator,
        operand: Operand,
        to: u32,
    },
    /// r[`to`] (p3) is what the operator gives for its operands. It stands for the opcodes of the operators with two operands, as
    /// Add, Concat and Lt.
    Binary {
        operator: BinaryOperator,
        left: Operand,
        right: Operand,
        to: u32,
    },
    /// r[`to`] is whether a text is like a pattern with a character of escape.
    LikeEscaped {
        text: Operand,
        pattern: Operand,
        escape: Operand,
        to: u32,
    },
    /// r[`to`] (p3) is what the function (p4) gives for its arguments (p2, p5), where texts are compared under the collation.
    Function {
        function: Builtin,
        collation: Collation,
        args: Items<Operand>,
        to: u32,
    },
    /// Where r[`from`] is bad r[`to`] becomes bad, with the causes of both; where it is good r[`to`] stays as it is.
    Merge {
        from: u32,
        to: u32,
    },
    /// Opens a cursor (p1) on a table (p2) for reading. It is on no row.
    OpenRead {
        cursor: u32,
        table: u32,
    },
    /// Opens a cursor (p1) on a table (p2) for writing. It is on no row.
    OpenWrite {
        cursor: u32,
        table: u32,
    },
    /// From now on the cursor (p1) stands on a row that is no table's: its rowid is the one in r[`rowid`] (p2), and its values are those that the
    /// `count` registers from `first` (p3) on hold now, where one that is bad counts as NULL. No row is behind it.
    RowOf {
        cursor: u32,
        rowid: u32,
        first: u32,
        count: u32,
    },
    /// Closes a cursor (p1).
    Close {
        cursor: u32,
    },
    /// Closes the cursors from a number (p1) on: stands where loops are left in their middle.
    CloseFrom {
        cursor: u32,
    },
    /// The cursor (p1) comes to the first row of its table. Jumps to `target` (p2) where there is none.
    Rewind {
        cursor: u32,
        target: usize,
    },
    /// The cursor (p1) comes to the row behind its own and jumps to `target` (p2). Where there is none it comes off its row.
    Next {
        cursor: u32,
        target: usize,
    },
    /// Searches the cursor's (p1) table by the terms of a key (p4), as an index does: the cursor comes to the first row that is found, and `Next`
    /// leads through the others in the order of their rowids, which are fixed from now on. Jumps to `target` (p2) where no row is found, with
    /// the cursor on none; and where the cursor is open on no table. What rows must have is in the registers from `first` (p3) on: as many
    /// values as `bounds` says for the first terms, then the lower limit of the next term where there is one, then the upper limit where
    /// there is one. The first of them that is bad, and those behind it, bound nothing.
    Search {
        cursor: u32,
        terms: Items<KeyTerm>,
        bounds: Bounds,
        first: u32,
        target: usize,
    },
    /// The cursor (p1) comes to the row of its table that has the rowid in r[`rowid`] (p3). Where there is none, as where the register holds no
    /// integer, it comes off its row.
    SeekRowid {
        cursor: u32,
        rowid: u32,
    },
    /// Opens a sorter, which has no rows yet, and a cursor (p1) that walks them once they are in order. Sorters that are open stand in one another:
    /// the last one that was opened is the first one that is sorted.
    SorterOpen {
        cursor: u32,
    },
    /// Puts what the `count` registers from `first` (p2) on hold as a row into the sorter that was opened last, behind its rows.
    SorterInsert {
        first: u32,
        count: u32,
    },
    /// Puts the rows of the sorter that was opened last in the order of terms (p4), each of which reads a column of them: rows that are equal in all terms
    /// stay in the order in which they came. The cursor (p1) stands in front of the first one, and the sorter has no rows more. Jumps to `target`
    /// (p2) where there are none.
    SorterSort {
        cursor: u32,
        terms: Items<KeyTerm>,
        target: usize,
    },
    /// The `count` registers from `first` (p2) on hold the columns of the sorter's first row that the cursor (p1) has not left.
    SorterData {
        cursor: u32,
        first: u32,
        count: u32,
    },
    /// The cursor (p1) leaves the sorter's first row and jumps to `target` (p2) where there is one behind it.
    SorterNext {
        cursor: u32,
        target: usize,
    },
    /// r[`to`] (p3) is the column of number `column` (p2) of the cursor's (p1) row.
    Column {
        cursor: u32,
        column: u32,
        to: u32,
    },
    /// r[`to`] (p2) is the rowid of the cursor's (p1) row.
    Rowid {
        cursor: u32,
        to: u32,
    },
    /// Jumps to `target` (p2) where the cursor's (p1) table has no row of the rowid in r[`rowid`] (p3). A cursor that is open on no table has no
    /// row. The cursor stays where it is.
    NotExists {
        cursor: u32,
        rowid: u32,
        target: usize,
    },
    /// Jumps to `target` (p2) where no row of the cursor's (p1) table is in the way of the row that is the `count` registers from `first` (p3)
    /// on under the rowid in r[`rowid`]: none has that rowid, and none is equal to it in all terms of one of the `keys` (p4), of which none is
    /// NULL. Else it goes on, with the cursor on the first row in the way: that of the rowid, or that of the first such key. A cursor that is
    /// open on no table has no row.
    NoConflict {
        cursor: u32,
        rowid: u32,
        first: u32,
        count: u32,
        keys: Items<Items<KeyTerm>>,
        target: usize,
    },
    /// r[`to`] (p2) is the rowid behind the last of the cursor's (p1) table. Where there is none the unit gives up for `Full`, which
    /// names the table (p4).
    NewRowid {
        cursor: u32,
        to: u32,
        table: Text,
    },
    /// Puts the `count` registers from `first` (p2) on as a row into the cursor's (p1) table, under the rowid in r[`rowid`] (p3). Where the
    /// table has that rowid nothing changes.
    Insert {
        cursor: u32,
        rowid: u32,
        first: u32,
        count: u32,
    },
    /// Builds an index of the cursor's (p1) table by the terms of a key (p4). Where `unique` (p5) names the table and two of its rows are equal in
    /// all terms, none of which is NULL, the unit gives up for `Constraint`, which names the table. Else nothing changes that an instruction reads.
    BuildIndex {
        cursor: u32,
        terms: Items<KeyTerm>,
        unique: Option<Text>,
    },
    /// Changes which tables there are as `change` (p4) says: adds one without rows behind the others, or takes all rows from one. What
    /// the catalog keeps of them is the engine's own work. It counts no row as changed.
    Schema {
        change: SchemaChange,
    },
}
