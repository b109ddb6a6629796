// Tables of scripts. A case is what it shows, the words of the command line, the script, the lines that it writes and the status: between
// them stands `~`, and behind each case `@`.

/// What is worked by hand.
pub(crate) const WORKED: &[u8] = b"
An empty script:~~~~0@
One row:~~SELECT 1;~1
~0@
A table with a row, which is asked for:~~CREATE TABLE t(a INTEGER, b TEXT); INSERT INTO t VALUES(12, 'x'); SELECT b, a FROM t WHERE a > 3;~x|12
~0@
A word that is none:~x~~usage: sqlsh [--budget N] [--bail] [--make N]
~2@
Division and remainder truncate towards zero, and by zero both are NULL:~~SELECT 7/2, -7/2, 7%0, 1/0;~3|-3||
~0@
Integers overflow; the least one can be written:~~SELECT 9223372036854775807 + 1; SELECT -9223372036854775808;~Error 1: integer overflow
-9223372036854775808
~1@
REAL is refused:~~SELECT 1.5; CREATE TABLE r(x REAL); SELECT * FROM r;~Error 1: REAL is not supported
Error 1: REAL is not supported
Error 1: no such table: r
~1@
A condition is not raised before the others are looked at:~~CREATE TABLE t(a INTEGER); INSERT INTO t VALUES(0),(1); SELECT a FROM t WHERE 9223372036854775807 + a > 0 AND a = 0;~0
~0@
A column of integers takes no text of a REAL:~~CREATE TABLE t(a INTEGER); INSERT INTO t VALUES(1),('1.5'); SELECT a FROM t;~Error 1: REAL is not supported
~1@
Texts as numbers, shifts, and NULL:~~SELECT '5 apples' + 1, '12' = 12, CAST('9x' AS INTEGER), 1 << 64, -1 >> 70, NOT NULL, 5 IS NOT NULL;~6|0|9|0|-1||1
~0@
An operand that does not count is no error:~~SELECT 0 AND 1.5, 1 OR 1.5, coalesce(2, 1.5), CASE WHEN 1 THEN 3 ELSE 1.5 END; SELECT 1 AND 1.5; SELECT '2.5' + 1;~0|1|2|3
Error 1: REAL is not supported
Error 1: REAL is not supported
~1@
Collations and patterns:~~SELECT 'a'='A', 'a'='A' COLLATE NOCASE, 'a'='a ' COLLATE RTRIM, 'ab' LIKE 'A_', 'ab' GLOB 'A*';~0|1|1|1|0
~0@
Texts and their parts:~~SELECT substr('abc',0,2), substr('abc',-2), substr('abc',3,-2), hex('abc'), quote('it''s');~a|bc|ab|616263|'it''s'
~0@
The byte of a syntax error:~~SELECT FROM t;SELECT (1~Error 1: syntax error at byte 7
Error 1: syntax error at byte 9
~1@
In other clauses too:~~SELECT 1 FROM t WHERE;SELECT 1 x y;CREATE TABLE t(a PRIMARY KEY DESC);~Error 1: syntax error at byte 21
Error 1: syntax error at byte 11
Error 1: syntax error at byte 29
~1@
101 brackets:~~SELECT (((((((((((((((((((((((((((((((((((((((((((((((((((((((((((((((((((((((((((((((((((((((((((((((((((((~Error 1: limit of 100 nestings
~1@
What is not built yet:~~SELECT 1 ORDER BY 1;~Error 1: not built yet
~1@
A character that the end cuts:~~SELECT 1;
\xE2\x82~1
Error 1: not UTF-8 at byte 10
~1@
Budgets that are none:~--budget 0~~usage: sqlsh [--budget N] [--bail] [--make N]
~2@
~--budget 1099511627777~~usage: sqlsh [--budget N] [--bail] [--make N]
~2@";

/// Scripts behind which a read fails.
pub(crate) const FAULTS: &[u8] = b"
What has its end runs:~~CREATE TABLE t(a INTEGER, b TEXT); INSERT INTO t VALUES(12, 'x'); SELECT b, a FROM t WHERE a > 3;~x|12
~3@
~~SELECT 1; SELECT 2~1
~3@
What is pending does not:~~SELECT 'x';SELECT 'a~x
~3@
~~SELECT 'x';
.x~x
~3@
~~SELECT 'x';/* a~x
~3@
~~SELECT 'x';-- a~x
~3@
An error line changes no status:~~SELECT 1;
.x
.y~1
Error 1: unknown dot line
~3@
~~SELECT 1;DROP TABLE t;DROP TABLE t~1
Error 1: no such table: t
~3@
With --bail it ends the script before:~--bail~SELECT 1;DROP TABLE t~1
~3@
~--bail~SELECT 1;DROP TABLE t;~1
Error 1: no such table: t
~1@
~--bail~SELECT 1;
.x
~1
Error 1: unknown dot line
~1@
So do bytes with which no character begins or goes on:~~SELECT 1;SELECT 2\x80~1
Error 1: not UTF-8 at byte 17
~1@
~~SELECT 1;SELECT 2\xC0~1
Error 1: not UTF-8 at byte 17
~1@
~~SELECT 1;SELECT 2\xC3(~1
Error 1: not UTF-8 at byte 17
~1@
~~SELECT 1;SELECT 2\xE2\x82(~1
Error 1: not UTF-8 at byte 17
~1@
~~SELECT 1;SELECT 2\xED\xA0\x80~1
Error 1: not UTF-8 at byte 17
~1@
~~SELECT 1;SELECT 2\xF0\x9F\x98;~1
Error 1: not UTF-8 at byte 17
~1@
~~SELECT 1;SELECT 2\xF4\x90\x80\x80~1
Error 1: not UTF-8 at byte 17
~1@
~~SELECT 1;SELECT 2\xF5~1
Error 1: not UTF-8 at byte 17
~1@
~~SELECT 1;SELECT 2\xFF;SELECT 3;
.x
\xFF~1
Error 1: not UTF-8 at byte 17
~1@
But the front of a character is no error:~~SELECT 1;SELECT 2\xC3~1
~3@
~~SELECT 1;SELECT 2\xE2~1
~3@
~~SELECT 1;SELECT 2\xE2\x82~1
~3@
~~SELECT 1;SELECT 2\xF0\x9F~1
~3@
~~SELECT 1;SELECT 2\xF0\x9F\x98~1
~3@";
