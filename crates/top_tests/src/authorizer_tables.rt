// Tables of scripts whose statements an authorizer is asked about. A case is what it shows, the rows of verdicts, the script, the lines that
// it writes and the status: between them stands `~`, and behind each case `@`. A row is a kind of action, its two names, `-` where there is
// none, and the verdict; between rows stands `,`.

/// What is denied: the number of the first action that is, counted from 1.
pub(crate) const DENIED: &[u8] = b"
A column that is read, be there a row or none:~read t a deny~CREATE TABLE t(a INTEGER, b INTEGER); SELECT 1, a FROM t; SELECT a FROM t WHERE 0;~Error 23: denied: action 2
Error 23: denied: action 2
~1@
Names are told as they are declared:~read t a deny,read T A deny~CREATE TABLE t(a INTEGER); SELECT A FROM T; SELECT \"A\" FROM [T]; SELECT x.A FROM T AS x;~Error 23: denied: action 2
Error 23: denied: action 2
Error 23: denied: action 2
~1@
And not as they are written:~read T A deny,read x A deny,read x a deny~CREATE TABLE t(a INTEGER); INSERT INTO t VALUES(1); SELECT A FROM T; SELECT x.A FROM T AS x;~1
1
~0@
So are calls:~function abs - deny,function substr - deny~SELECT ABS(1); SELECT \"Abs\"(1); SELECT SUBSTRING('abc', 2); SELECT length('abc');~Error 23: denied: action 2
Error 23: denied: action 2
Error 23: denied: action 2
3
~1@
But operators are no calls:~function like - deny,function glob - deny,function cast - deny~SELECT 'a' LIKE 'A', 'a' GLOB 'a', CAST('7' AS INTEGER), -1;~1|1|7|-1
~0@
A star reads each column:~read t b deny~CREATE TABLE t(a INTEGER, b INTEGER); SELECT * FROM t; SELECT x.* FROM t AS x; SELECT 1 FROM t WHERE b;~Error 23: denied: action 3
Error 23: denied: action 3
Error 23: denied: action 2
~1@
Results come before WHERE:~read t b deny~CREATE TABLE t(a INTEGER, b INTEGER); SELECT a FROM t WHERE a = 1 AND b = 2; SELECT a FROM t WHERE a BETWEEN a AND b;~Error 23: denied: action 4
Error 23: denied: action 5
~1@
A table of which no column is read:~read t - deny~CREATE TABLE t(a INTEGER); INSERT INTO t VALUES(7); SELECT 1 FROM t; SELECT abs(1) FROM t; SELECT a FROM t; SELECT 1 FROM t WHERE a;~Error 23: denied: action 2
Error 23: denied: action 3
7
1
~1@
It stands between results and WHERE:~function upper - deny~CREATE TABLE t(a INTEGER); SELECT abs(1) FROM t WHERE upper('x') = 'X'; SELECT upper('x') FROM t;~Error 23: denied: action 4
Error 23: denied: action 2
~1@
A call comes before its arguments:~read t b deny~CREATE TABLE t(a INTEGER, b INTEGER); SELECT max(a, iif(b, 1, 2)) FROM t; SELECT max(iif(b, 1, 2), a) FROM t;~Error 23: denied: action 5
Error 23: denied: action 4
~1@
An operand that does not count is asked about too:~read t a deny~CREATE TABLE t(a INTEGER); SELECT 0 AND a FROM t; SELECT coalesce(1, abs(a)) FROM t;~Error 23: denied: action 2
Error 23: denied: action 4
~1@
What is named twice is asked about twice:~function abs - deny~CREATE TABLE t(a INTEGER); SELECT a, a, abs(1) FROM t; SELECT a AS x FROM t WHERE x = abs(1);~Error 23: denied: action 4
Error 23: denied: action 4
~1@
A column of another table:~read t a deny,read v b deny~CREATE TABLE t(a INTEGER); CREATE TABLE u(a, b); INSERT INTO u VALUES(5, 6); SELECT a, b FROM u; SELECT t.a FROM u AS t;~5|6
5
~0@
A statement without a table:~select - - deny~SELECT 1; SELECT abs(1);~Error 23: denied: action 1
Error 23: denied: action 1
~1@
Rows of VALUES, which are no SELECT:~select - - deny,function lower - deny~VALUES (abs(1), 2), (3, lower('X')); VALUES (4), (5);~Error 23: denied: action 2
4
5
~1@
An INSERT leaves the table:~insert t - deny~CREATE TABLE t(a INTEGER, b INTEGER); CREATE TABLE u(c); INSERT INTO u VALUES(5); INSERT INTO t VALUES(1, 2); INSERT INTO t(b) VALUES(3); INSERT INTO t DEFAULT VALUES; INSERT INTO T VALUES(1, abs(2)), (3, 4); SELECT a, b FROM t; SELECT c FROM u;~Error 23: denied: action 1
Error 23: denied: action 1
Error 23: denied: action 1
Error 23: denied: action 1
5
~1@
So does one whose values may not be had:~function abs - deny~CREATE TABLE t(a INTEGER, b INTEGER); INSERT INTO t VALUES(1, 2); INSERT INTO t VALUES(3, 4), (5, abs(6)); INSERT INTO t(b, a) VALUES(7, 8), (lower('X'), ABS(9)); SELECT a, b FROM t;~Error 23: denied: action 2
Error 23: denied: action 3
1|2
~1@
A column that an INSERT names is not read:~read t a deny,read t b deny,update t b deny~CREATE TABLE t(a INTEGER, b INTEGER); INSERT INTO t(b) VALUES(3); INSERT INTO t VALUES(4, 5); SELECT 1 FROM t;~1
1
~0@
CREATE TABLE:~create_table t - deny~CREATE TABLE t(a); CREATE TABLE IF NOT EXISTS t(a); SELECT 1 FROM t; CREATE TABLE u(a); SELECT a FROM u;~Error 23: denied: action 1
Error 23: denied: action 1
Error 1: no such table: t
~1@
DROP TABLE leaves the table:~drop_table t - deny~CREATE TABLE t(a INTEGER, b INTEGER); INSERT INTO t VALUES(1, 2); DROP TABLE t; DROP TABLE IF EXISTS T; SELECT a, b FROM t; CREATE TABLE u(a); DROP TABLE u; SELECT a FROM u;~Error 23: denied: action 1
Error 23: denied: action 1
1|2
Error 1: no such table: u
~1@
PRAGMA:~pragma foreign_keys - deny~PRAGMA foreign_keys=OFF; PRAGMA Foreign_Keys(OFF);~Error 23: denied: action 1
Error 23: denied: action 1
~1@
The first denial counts, not the last:~read t a deny,read t b deny~CREATE TABLE t(a INTEGER, b INTEGER); SELECT b, a FROM t; SELECT 1, abs(a), b FROM t WHERE b;~Error 23: denied: action 2
Error 23: denied: action 3
~1@
And not the first that is ignored:~read t b ignore,read t a deny,insert t - ignore,function abs - deny~CREATE TABLE t(a INTEGER, b INTEGER); SELECT b, a FROM t; SELECT a, b FROM t; INSERT INTO t VALUES(1, abs(2)); SELECT b FROM t;~Error 23: denied: action 3
Error 23: denied: action 2
Error 23: denied: action 2
~1@";

/// What comes before, and behind.
pub(crate) const ORDER: &[u8] = b"
What is denied is not evaluated:~read t a deny,insert u - deny~CREATE TABLE t(a INTEGER); INSERT INTO t VALUES(1); CREATE TABLE u(a INTEGER); SELECT 9223372036854775807 + 1, a FROM t; INSERT INTO u VALUES(1.5); INSERT INTO u VALUES(9223372036854775807 + 1); SELECT 9223372036854775807 + 1 FROM t;~Error 23: denied: action 2
Error 23: denied: action 1
Error 23: denied: action 1
Error 1: integer overflow
~1@
Names are bound before:~select - - deny,function abs - deny~CREATE TABLE t(a INTEGER); SELECT nosuch FROM t; SELECT a FROM t WHERE nosuch; SELECT 1 FROM nosuch; SELECT nosuch(1); SELECT abs(); SELECT 1 COLLATE nosuch; SELECT *;~Error 1: no such column: nosuch
Error 1: no such column: nosuch
Error 1: no such table: nosuch
Error 1: no such function: nosuch
Error 1: wrong number of values: abs
Error 1: no such collation: nosuch
Error 1: misuse of: *
~1@
Those of an INSERT too:~insert t - deny,insert nosuch - deny~CREATE TABLE t(a INTEGER, b INTEGER); INSERT INTO t VALUES(1); INSERT INTO t(c) VALUES(1); INSERT INTO t VALUES(1, nosuch); INSERT INTO nosuch VALUES(1);~Error 1: wrong number of values: t
Error 1: no such column: c
Error 1: no such column: nosuch
Error 1: no such table: nosuch
~1@
And of CREATE, DROP and PRAGMA:~create_table T - deny,create_table u - deny,create_table sqlite_t - deny,drop_table nosuch - deny,pragma foreign_keys - deny~CREATE TABLE t(a); CREATE TABLE T(b); CREATE TABLE u(n, n); CREATE TABLE u(x REAL); CREATE TABLE sqlite_t(a); DROP TABLE nosuch; PRAGMA foreign_keys=ON;~Error 1: table already exists: t
Error 1: column already exists: n
Error 1: REAL is not supported
Error 1: reserved name: sqlite_t
Error 1: no such table: nosuch
Error 1: no such pragma: foreign_keys
~1@
What does nothing is not asked about:~create_table T - deny,create_table t - ignore,drop_table nosuch - deny,drop_table NoSuch - deny~CREATE TABLE t(a); CREATE TABLE IF NOT EXISTS T(b); DROP TABLE IF EXISTS NoSuch; DROP TABLE IF EXISTS nosuch; INSERT INTO t VALUES(1); SELECT a FROM t;~1
~0@
What is not built comes before:~update t b deny,delete t - deny,select - - deny,function count - deny~CREATE TABLE t(a INTEGER, b INTEGER); UPDATE t SET a=1, b=2; DELETE FROM t; SELECT a FROM t ORDER BY a; SELECT count(*) FROM t; EXPLAIN QUERY PLAN SELECT 1 LIMIT 1; BEGIN;~Error 1: not built yet
Error 1: not built yet
Error 1: not built yet
Error 1: not built yet
Error 1: not built yet
Error 1: not built yet
~1@
What stands behind EXPLAIN is asked about as it is without:~select - - deny,pragma foreign_keys - deny~CREATE TABLE t(a INTEGER); EXPLAIN SELECT a FROM t; EXPLAIN QUERY PLAN SELECT 1; EXPLAIN QUERY PLAN INSERT INTO t VALUES(1); EXPLAIN PRAGMA foreign_keys=OFF;~Error 23: denied: action 1
Error 23: denied: action 1
Error 23: denied: action 1
~1@
And a text that is none:~select - - deny~SELECT FROM t; SELECT 1 x y;~Error 1: syntax error at byte 7
Error 1: syntax error at byte 11
~1@
A denial ends its statement alone:~function abs - deny~SELECT 1; SELECT abs(2); SELECT 3;~1
Error 23: denied: action 2
3
~1@";

/// What is ignored: a column reads NULL, and anything else is done.
pub(crate) const IGNORED: &[u8] = b"
A column reads NULL in each row:~read t b ignore~CREATE TABLE t(a INTEGER, b INTEGER); INSERT INTO t VALUES(1, 2), (3, 4); SELECT b IS NULL FROM t;~1
1
~0@
One beside it does not:~read t b ignore~CREATE TABLE t(a INTEGER, b INTEGER); INSERT INTO t VALUES(1, 2), (3, 4); SELECT b, a FROM t; SELECT a, a + b, a FROM t;~|1
|3
1||1
3||3
~0@
Where it is shown by a star:~read t b ignore~CREATE TABLE t(a INTEGER, b INTEGER); INSERT INTO t VALUES(1, 2), (3, 4); SELECT * FROM t; SELECT x.*, X.B IS NULL FROM T AS x;~1|
3|
1||1
3||1
~0@
All columns of a table:~read t a ignore,read t b ignore~CREATE TABLE t(a INTEGER, b INTEGER); INSERT INTO t VALUES(1, 2), (3, 4); SELECT * FROM t; SELECT a IS b, a = b FROM t WHERE a IS NULL;~|
|
1|
1|
~0@
In WHERE:~read t b ignore~CREATE TABLE t(a INTEGER, b INTEGER); INSERT INTO t VALUES(1, 1), (3, 4); SELECT a FROM t WHERE b = 1; SELECT a FROM t WHERE b IS NULL; SELECT a FROM t WHERE b IS NULL AND a > 1; SELECT a FROM t WHERE b;~1
3
3
~0@
In parts of a WHERE:~read t b ignore~CREATE TABLE t(a INTEGER, b INTEGER); INSERT INTO t VALUES(1, 1), (3, 4); SELECT a FROM t WHERE a = 3 OR b = 1; SELECT a FROM t WHERE b BETWEEN 1 AND 9; SELECT a FROM t WHERE a BETWEEN b AND 9; SELECT a FROM t WHERE NOT a BETWEEN b AND 2; SELECT a FROM t WHERE b IN (1, 4); SELECT a FROM t WHERE b NOT IN (7);~3
3
~0@
By the name of a result:~read t b ignore~CREATE TABLE t(a INTEGER, b INTEGER); INSERT INTO t VALUES(1, 2), (3, 4); SELECT b AS x, a AS y FROM t WHERE x IS NULL AND y = 3;~|3
~0@
In calls and choices:~read t b ignore~CREATE TABLE t(a INTEGER, b INTEGER); INSERT INTO t VALUES(1, 2); SELECT coalesce(b, 7), typeof(b), quote(b), abs(b), max(a, b), iif(b, 1, 0), nullif(a, b) FROM t; SELECT CASE b WHEN 2 THEN 'two' ELSE 'other' END, CASE WHEN b THEN 'yes' WHEN a THEN 'a' END FROM t;~7|null|NULL|||0|1
other|a
~0@
Under operators:~read t b ignore~CREATE TABLE t(a INTEGER, b TEXT); INSERT INTO t VALUES(1, 'k'); SELECT b = 1, b = 'K' COLLATE NOCASE, b || 'x', b LIKE '%', b IS 'k', b IS NOT NULL, NOT b, -b, CAST(b AS TEXT) IS NULL, b AND 0, b OR 1 FROM t;~||||0|0|||1|0|1
~0@
What is ignored raises nothing:~read t b ignore~CREATE TABLE t(a INTEGER, b INTEGER); INSERT INTO t VALUES(1, 1); SELECT 9223372036854775807 + b IS NULL FROM t; SELECT a FROM t WHERE 9223372036854775807 + b > 0; SELECT 9223372036854775807 + a FROM t;~1
Error 1: integer overflow
~1@
A column of another table:~read t b ignore~CREATE TABLE t(a INTEGER, b INTEGER); CREATE TABLE u(b, c); INSERT INTO u VALUES(5, 6); SELECT b, c FROM u; SELECT t.b FROM u AS t;~5|6
5
~0@
A table that is read itself:~read t - ignore,read t a ignore~CREATE TABLE t(a INTEGER, b INTEGER); INSERT INTO t VALUES(1, 2); SELECT 8 FROM t; SELECT b FROM t; SELECT a, b FROM t;~8
2
|2
~0@
A SELECT and a call are done:~select - - ignore,function abs - ignore,function upper - ignore~CREATE TABLE t(a INTEGER); INSERT INTO t VALUES(abs(-4)); SELECT abs(-3), upper('x'); SELECT abs(a), a FROM t WHERE upper('y') = 'Y'; VALUES (abs(-5));~3|X
4|4
5
~0@
So is all else:~create_table t - ignore,insert t - ignore,drop_table t - ignore,pragma foreign_keys - ignore,read t - ignore~CREATE TABLE t(a INTEGER, b INTEGER); INSERT INTO t VALUES(1, 2); INSERT INTO t(b) VALUES(3); SELECT a, b FROM t; PRAGMA foreign_keys=OFF; DROP TABLE t; SELECT a FROM t;~1|2
|3
Error 1: no such table: t
~1@
A column of an index, by which nothing is found then:~read t a ignore~CREATE TABLE t(a INTEGER, b INTEGER UNIQUE); CREATE INDEX i ON t(a); INSERT INTO t VALUES(1, 2), (3, 4); SELECT b FROM t WHERE a = 1; SELECT b FROM t WHERE a IS NULL AND b = 4; SELECT a, b FROM t WHERE b > 2;~4
|4
~0@
A row of another kind is no row:~update t b ignore,insert t b ignore,read u b ignore,read t c ignore~CREATE TABLE t(a INTEGER, b INTEGER); INSERT INTO t VALUES(1, 2); SELECT a, b FROM t;~1|2
~0@
A column in an ON, by an index and by none:~read u a ignore~CREATE TABLE t(a INTEGER); CREATE TABLE u(a INTEGER, c); INSERT INTO t VALUES(1), (2); INSERT INTO u VALUES(1, 'x'), (2, 'y'); SELECT t.a, c FROM t JOIN u ON u.a = t.a; SELECT t.a, c FROM t LEFT JOIN u ON u.a = t.a; CREATE INDEX i ON u(a); SELECT t.a, c FROM t JOIN u ON u.a = t.a; SELECT t.a, c FROM t LEFT JOIN u ON u.a = t.a; SELECT t.a, c FROM t JOIN u ON u.a IS NULL WHERE t.a = 1;~1|
2|
1|
2|
1|x
1|y
~0@";

/// A script for an authorizer that allows, ignores and denies by turns, whatever it is asked about.
pub(crate) const UNTOLD: &[u8] = b"
CREATE TABLE t(a INTEGER, b INTEGER); INSERT INTO t VALUES(1, 2);
SELECT 1; SELECT b FROM t; CREATE TABLE u(c); CREATE TABLE u(c); INSERT INTO u VALUES(abs(3)); SELECT b FROM t;
SELECT c FROM u; INSERT INTO u VALUES(4), (5); DROP TABLE u; SELECT b FROM t; SELECT 1 FROM t WHERE b IS NULL OR b = 2; SELECT b FROM t;
DROP TABLE IF EXISTS u; SELECT b FROM t; VALUES (1), (2); SELECT b FROM t;
";

/// Its lines: t has its one row throughout, whose column is NULL or may not be read.
pub(crate) const UNTOLD_LINES: &[u8] = b"Error 23: denied: action 1

Error 23: denied: action 1
Error 23: denied: action 2

Error 23: denied: action 1
Error 23: denied: action 1
Error 23: denied: action 3

Error 23: denied: action 1
1
2

";
