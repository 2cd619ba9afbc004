//! Texts and what they spell: a text, 0xfd and the statement in a short form or the number of the refusal, each row
//! behind a 0xfe.

/// 408 rows.
pub const ROWS: &[u8] = b"\
\xfeINSERT INTO t VALUES (1,2)\xfdinsert t (1 2 )\
\xfeinsert t values (1)\xfdinsert t (1 )\
\xfeINSERT INTO t VALUE (1),(2)\xfdinsert t (1 ) (2 )\
\xfeINSERT INTO t (a, b) VALUES (1,'x'),(DEFAULT,NULL)\xfdinsert t(a b ) (1 'x' ) (* null )\
\xfeINSERT INTO t VALUES (-5, - 7, -0, 007)\xfdinsert t (-5 -7 0 7 )\
\xfeINSERT INTO t VALUES (170141183460469231731687303715884105727, -170141183460469231731687303715884105727)\xfdinsert t (170141183460469231731687303715884105727 -170141183460469231731687303715884105727 )\
\xfeINSERT INTO t VALUES (170141183460469231731687303715884105728)\xfd1064\
\xfeINSERT INTO t VALUES (0000000000000000000000000000000000000000170141183460469231731687303715884105727)\xfdinsert t (170141183460469231731687303715884105727 )\
\xfeINSERT INTO t VALUES ('it''s', \"a\"\"b\", 'a\"b', '')\xfdinsert t ('it's' 'a\"b' 'a\"b' '' )\
\xfeINSERT INTO t VALUES ('\\\\a\\q\\'\\\"\\%\\_\\n')\xfdinsert t ('\\aq'\"\\%\\_\n' )\
\xfeINSERT INTO t VALUES (x'616263', X'', 0x4142, 0x141, _binary 'a\\tb', _BINARY\"z\")\xfdinsert t (x'abc' x'' x'AB' x'\x01A' x'a\tb' x'z' )\
\xfeINSERT INTO t VALUES (x'4a4B', 0x6a6B)\xfdinsert t (x'JK' x'jk' )\
\xfeINSERT INTO t VALUES (_binary '\x80')\xfdinsert t (x'\x80' )\
\xfeINSERT INTO t VALUES (+5)\xfd1064\
\xfeINSERT INTO t VALUES (- - 5)\xfd1064\
\xfeINSERT INTO t VALUES (-'a')\xfd1064\
\xfeINSERT INTO t VALUES (a)\xfd1064\
\xfeINSERT INTO t VALUES ()\xfd1064\
\xfeINSERT INTO t VALUES (1,)\xfd1064\
\xfeINSERT INTO t VALUES (1) (2)\xfd1064\
\xfeINSERT INTO t VALUES (1),\xfd1064\
\xfeINSERT INTO t () VALUES (1)\xfd1064\
\xfeINSERT INTO t VALUES (1\xfd1064\
\xfeINSERT INTO t\xfd1064\
\xfeINSERT INTO t VALUES (1) 2\xfd1064\
\xfeINSERT INTO t VALUES (1);\xfd1064\
\xfeREPLACE INTO t VALUES (1)\xfdreplace t (1 )\
\xfeREPLACE t (a) VALUE (NULL)\xfdreplace t(a ) (null )\
\xfeSELECT `select`, `a``b`, `x y` FROM `from`\xfdselect (select a`b x y ) from\
\xfeSELECT select FROM t\xfd1064\
\xfeSELECT a FROM limit\xfd1064\
\xfeSELECT ascii, ascii_bin, value, work, savepoint FROM engine\xfdselect (ascii ascii_bin value work savepoint ) engine\
\xfeSELECT $a_1, _b FROM T\xfdselect ($a_1 _b ) T\
\xfeSELECT 'a' FROM t\xfd1064\
\xfeSELECT aaaaaaaaaaaaaaaaaaaaaaaaaaaaaaaaaaaaaaaaaaaaaaaaaaaaaaaaaaaaaaaa FROM t\xfdselect (aaaaaaaaaaaaaaaaaaaaaaaaaaaaaaaaaaaaaaaaaaaaaaaaaaaaaaaaaaaaaaaa ) t\
\xfeSELECT aaaaaaaaaaaaaaaaaaaaaaaaaaaaaaaaaaaaaaaaaaaaaaaaaaaaaaaaaaaaaaaaa FROM t\xfd1064\
\xfeSELECT `aaaaaaaaaaaaaaaaaaaaaaaaaaaaaaaaaaaaaaaaaaaaaaaaaaaaaaaaaaaaaaaa` FROM t\xfdselect (aaaaaaaaaaaaaaaaaaaaaaaaaaaaaaaaaaaaaaaaaaaaaaaaaaaaaaaaaaaaaaaa ) t\
\xfeSELECT `aaaaaaaaaaaaaaaaaaaaaaaaaaaaaaaaaaaaaaaaaaaaaaaaaaaaaaaaaaaaaaaaa` FROM t\xfd1064\
\xfeSELECT `` FROM t\xfd1064\
\xfeSELECT t.a FROM t\xfd1064\
\xfeSESSION And\xfd1064\
\xfeSESSION Asc\xfd1064\
\xfeSESSION Between\xfd1064\
\xfeSESSION Bigint\xfd1064\
\xfeSESSION By\xfd1064\
\xfeSESSION Character\xfd1064\
\xfeSESSION Collate\xfd1064\
\xfeSESSION Create\xfd1064\
\xfeSESSION Default\xfd1064\
\xfeSESSION Delete\xfd1064\
\xfeSESSION Desc\xfd1064\
\xfeSESSION Drop\xfd1064\
\xfeSESSION Exists\xfd1064\
\xfeSESSION Force\xfd1064\
\xfeSESSION From\xfd1064\
\xfeSESSION If\xfd1064\
\xfeSESSION In\xfd1064\
\xfeSESSION Index\xfd1064\
\xfeSESSION Insert\xfd1064\
\xfeSESSION Int\xfd1064\
\xfeSESSION Integer\xfd1064\
\xfeSESSION Into\xfd1064\
\xfeSESSION Is\xfd1064\
\xfeSESSION Key\xfd1064\
\xfeSESSION Limit\xfd1064\
\xfeSESSION Lock\xfd1064\
\xfeSESSION Not\xfd1064\
\xfeSESSION Null\xfd1064\
\xfeSESSION On\xfd1064\
\xfeSESSION Or\xfd1064\
\xfeSESSION Order\xfd1064\
\xfeSESSION Primary\xfd1064\
\xfeSESSION Release\xfd1064\
\xfeSESSION Replace\xfd1064\
\xfeSESSION Select\xfd1064\
\xfeSESSION Set\xfd1064\
\xfeSESSION Table\xfd1064\
\xfeSESSION To\xfd1064\
\xfeSESSION Unique\xfd1064\
\xfeSESSION Unlock\xfd1064\
\xfeSESSION Unsigned\xfd1064\
\xfeSESSION Update\xfd1064\
\xfeSESSION Values\xfd1064\
\xfeSESSION Varbinary\xfd1064\
\xfeSESSION Varchar\xfd1064\
\xfeSESSION Where\xfd1064\
\xfeSESSION With\xfd1064\
\xfeSESSION `key`\xfdsession key\
\xfeSESSION reada\xfdsession reada\
\xfeSELECT * FROM t\xfdselect * t\
\xfeselect*from`t`\xfdselect * t\
\xfeSELECT COUNT(*), MIN(a), max ( `b` ) FROM t\xfdselect {count min:a max:b } t\
\xfeSELECT count, min, max FROM t\xfdselect (count min max ) t\
\xfeSELECT COUNT(a) FROM t\xfd1064\
\xfeSELECT MIN(*) FROM t\xfd1064\
\xfeSELECT a, COUNT(*) FROM t\xfd1064\
\xfeSELECT COUNT(*), a FROM t\xfd1064\
\xfeSELECT *, a FROM t\xfd1064\
\xfeSELECT FROM t\xfd1064\
\xfeSELECT a b FROM t\xfd1064\
\xfeSELECT 1\xfd1064\
\xfeSELECT * FROM t FORCE INDEX (k)\xfdselect * t by k\
\xfeSELECT * FROM t FORCE INDEX (PRIMARY)\xfdselect * t by-primary\
\xfeSELECT * FROM t FORCE INDEX (`PRIMARY`)\xfdselect * t by PRIMARY\
\xfeSELECT * FROM t FORCE INDEX k\xfd1064\
\xfeSELECT * FROM t FORCE INDEX (k,l)\xfd1064\
\xfeSELECT * FROM t ORDER BY a\xfdselect * t +a\
\xfeSELECT * FROM t ORDER BY a ASC, b DESC, c\xfdselect * t +a -b +c\
\xfeSELECT * FROM t ORDER a\xfd1064\
\xfeSELECT * FROM t ORDER BY a ASC DESC\xfd1064\
\xfeSELECT * FROM t LIMIT 5\xfdselect * t most 5\
\xfeSELECT * FROM t LIMIT 5 OFFSET 7\xfdselect * t skip 7 most 5\
\xfeSELECT * FROM t LIMIT 5, 7\xfdselect * t skip 5 most 7\
\xfeSELECT * FROM t LIMIT 18446744073709551615\xfdselect * t most 18446744073709551615\
\xfeSELECT * FROM t LIMIT 18446744073709551616\xfd1064\
\xfeSELECT * FROM t LIMIT 1, 18446744073709551616\xfd1064\
\xfeSELECT * FROM t LIMIT 18446744073709551616 OFFSET 1\xfd1064\
\xfeSELECT * FROM t LIMIT -1\xfd1064\
\xfeSELECT * FROM t LIMIT\xfd1064\
\xfeSELECT * FROM t LIMIT 1 LIMIT 2\xfd1064\
\xfeSELECT COUNT(*) FROM t ORDER BY a\xfd1064\
\xfeSELECT COUNT(*) FROM t LIMIT 1\xfd1064\
\xfeSELECT COUNT(*) FROM t FORCE INDEX (k) WHERE a=1\xfdselect {count } t by k where a=1\
\xfeSELECT * FROM t FORCE INDEX (k) WHERE a=1 ORDER BY b LIMIT 1,2\xfdselect * t by k where a=1 +b skip 1 most 2\
\xfeSELECT * FROM t WHERE a=1 FORCE INDEX (k)\xfd1064\
\xfeSELECT * FROM t ORDER BY b WHERE a=1\xfd1064\
\xfeSELECT * FROM t LIMIT 1 ORDER BY b\xfd1064\
\xfeDELETE FROM t\xfddelete t\
\xfeDELETE t\xfd1064\
\xfeDELETE FROM t WHERE\xfd1064\
\xfeDELETE FROM t WHERE a = 1\xfddelete t where a=1\
\xfeDELETE FROM t WHERE a<>1\xfddelete t where a!1\
\xfeDELETE FROM t WHERE a != 1\xfddelete t where a!1\
\xfeDELETE FROM t WHERE a<1\xfddelete t where a<1\
\xfeDELETE FROM t WHERE a<=1\xfddelete t where a<=1\
\xfeDELETE FROM t WHERE a>1\xfddelete t where a>1\
\xfeDELETE FROM t WHERE a>=1\xfddelete t where a>=1\
\xfeDELETE FROM t WHERE 1 = a\xfddelete t where a=1\
\xfeDELETE FROM t WHERE 1 <> a\xfddelete t where a!1\
\xfeDELETE FROM t WHERE 1 < a\xfddelete t where a>1\
\xfeDELETE FROM t WHERE 1<=a\xfddelete t where a>=1\
\xfeDELETE FROM t WHERE 1 > a\xfddelete t where a<1\
\xfeDELETE FROM t WHERE 1>=a\xfddelete t where a<=1\
\xfeDELETE FROM t WHERE -1 != a\xfddelete t where a!-1\
\xfeDELETE FROM t WHERE NULL = a\xfddelete t where a=null\
\xfeDELETE FROM t WHERE 'x'<a\xfddelete t where a>'x'\
\xfeDELETE FROM t WHERE a = NULL\xfddelete t where a=null\
\xfeDELETE FROM t WHERE a = x'41'\xfddelete t where a=x'A'\
\xfeDELETE FROM t WHERE a < > 1\xfd1064\
\xfeDELETE FROM t WHERE a = = 1\xfd1064\
\xfeDELETE FROM t WHERE a = b\xfd1064\
\xfeDELETE FROM t WHERE 1 = 1\xfd1064\
\xfeDELETE FROM t WHERE a\xfd1064\
\xfeDELETE FROM t WHERE a ! = 1\xfd1064\
\xfeDELETE FROM t WHERE a IS NULL\xfddelete t where a?\
\xfeDELETE FROM t WHERE a IS NOT NULL\xfddelete t where ~a?\
\xfeDELETE FROM t WHERE a IS 1\xfd1064\
\xfeDELETE FROM t WHERE a NOT NULL\xfd1064\
\xfeDELETE FROM t WHERE 1 IS NULL\xfd1064\
\xfeDELETE FROM t WHERE a BETWEEN 1 AND 2\xfddelete t where a:1..2\
\xfeDELETE FROM t WHERE a NOT BETWEEN 'x' AND NULL\xfddelete t where ~a:'x'..null\
\xfeDELETE FROM t WHERE a BETWEEN 1 OR 2\xfd1064\
\xfeDELETE FROM t WHERE a BETWEEN 1\xfd1064\
\xfeDELETE FROM t WHERE a BETWEEN 1 AND 2 AND b=3\xfddelete t where &(a:1..2 b=3 )\
\xfeDELETE FROM t WHERE a IN (1)\xfddelete t where a:{1 }\
\xfeDELETE FROM t WHERE a IN (1,'b',NULL)\xfddelete t where a:{1 'b' null }\
\xfeDELETE FROM t WHERE a NOT IN (1,2)\xfddelete t where ~a:{1 2 }\
\xfeDELETE FROM t WHERE a IN ()\xfd1064\
\xfeDELETE FROM t WHERE a IN 1\xfd1064\
\xfeDELETE FROM t WHERE a NOT = 1\xfd1064\
\xfeDELETE FROM t WHERE a=1 AND b=2\xfddelete t where &(a=1 b=2 )\
\xfeDELETE FROM t WHERE a=1 and b=2 And c=3\xfddelete t where &(a=1 b=2 c=3 )\
\xfeDELETE FROM t WHERE a=1 OR b=2 OR c=3\xfddelete t where |(a=1 b=2 c=3 )\
\xfeDELETE FROM t WHERE a=1 OR b=2 AND c=3\xfddelete t where |(a=1 &(b=2 c=3 ) )\
\xfeDELETE FROM t WHERE a=1 AND b=2 OR c=3\xfddelete t where |(&(a=1 b=2 ) c=3 )\
\xfeDELETE FROM t WHERE (a=1 OR b=2) AND c=3\xfddelete t where &(|(a=1 b=2 ) c=3 )\
\xfeDELETE FROM t WHERE a=1 AND (b=2 AND c=3)\xfddelete t where &(a=1 &(b=2 c=3 ) )\
\xfeDELETE FROM t WHERE ((a=1))\xfddelete t where a=1\
\xfeDELETE FROM t WHERE (a=1\xfd1064\
\xfeDELETE FROM t WHERE a=1)\xfd1064\
\xfeDELETE FROM t WHERE ()\xfd1064\
\xfeDELETE FROM t WHERE NOT a=1\xfddelete t where ~a=1\
\xfeDELETE FROM t WHERE NOT NOT a=1\xfddelete t where ~~a=1\
\xfeDELETE FROM t WHERE NOT a=1 AND b=2\xfddelete t where &(~a=1 b=2 )\
\xfeDELETE FROM t WHERE NOT (a=1 OR b=2)\xfddelete t where ~|(a=1 b=2 )\
\xfeDELETE FROM t WHERE NOT a IS NOT NULL\xfddelete t where ~~a?\
\xfeDELETE FROM t WHERE NOT\xfd1064\
\xfeDELETE FROM t WHERE a=1 AND\xfd1064\
\xfeDELETE FROM t WHERE a=1 OR\xfd1064\
\xfeDELETE FROM t WHERE AND a=1\xfd1064\
\xfeDELETE FROM t WHERE a=1 b=2\xfd1064\
\xfeDELETE FROM t WHERE NOT NOT NOT NOT NOT NOT NOT NOT NOT NOT NOT NOT NOT NOT NOT NOT NOT NOT NOT NOT NOT NOT NOT NOT NOT NOT NOT NOT NOT NOT NOT NOT NOT NOT NOT NOT NOT NOT NOT NOT NOT NOT NOT NOT NOT NOT NOT NOT NOT NOT NOT NOT NOT NOT NOT NOT NOT NOT NOT NOT NOT NOT NOT NOT a=1\xfddelete t where ~~~~~~~~~~~~~~~~~~~~~~~~~~~~~~~~~~~~~~~~~~~~~~~~~~~~~~~~~~~~~~~~a=1\
\xfeDELETE FROM t WHERE NOT NOT NOT NOT NOT NOT NOT NOT NOT NOT NOT NOT NOT NOT NOT NOT NOT NOT NOT NOT NOT NOT NOT NOT NOT NOT NOT NOT NOT NOT NOT NOT NOT NOT NOT NOT NOT NOT NOT NOT NOT NOT NOT NOT NOT NOT NOT NOT NOT NOT NOT NOT NOT NOT NOT NOT NOT NOT NOT NOT NOT NOT NOT NOT NOT a=1\xfd1064\
\xfeDELETE FROM t WHERE ((((((((((((((((((((((((((((((((((((((((((((((((((((((((((((((((a=1))))))))))))))))))))))))))))))))))))))))))))))))))))))))))))))))\xfddelete t where a=1\
\xfeDELETE FROM t WHERE (((((((((((((((((((((((((((((((((((((((((((((((((((((((((((((((((a=1)))))))))))))))))))))))))))))))))))))))))))))))))))))))))))))))))\xfd1064\
\xfeDELETE FROM t WHERE (NOT (NOT (NOT (NOT (NOT (NOT (NOT (NOT (NOT (NOT (NOT (NOT (NOT (NOT (NOT (NOT (NOT (NOT (NOT (NOT (NOT (NOT (NOT (NOT (NOT (NOT (NOT (NOT (NOT (NOT (NOT (NOT a=1))))))))))))))))))))))))))))))))\xfddelete t where ~~~~~~~~~~~~~~~~~~~~~~~~~~~~~~~~a=1\
\xfeDELETE FROM t WHERE NOT (NOT (NOT (NOT (NOT (NOT (NOT (NOT (NOT (NOT (NOT (NOT (NOT (NOT (NOT (NOT (NOT (NOT (NOT (NOT (NOT (NOT (NOT (NOT (NOT (NOT (NOT (NOT (NOT (NOT (NOT (NOT (NOT a=1))))))))))))))))))))))))))))))))\xfd1064\
\xfeDELETE FROM t WHERE ((((((((((((((((((((((((((((((((((((((((((((((((((((((((((((((((a NOT IN (1)))))))))))))))))))))))))))))))))))))))))))))))))))))))))))))))))\xfddelete t where ~a:{1 }\
\xfeDELETE FROM t WHERE (a=1) AND ((((((((((((((((((((((((((((((((((((((((((((((((((((((((((((((((b=2))))))))))))))))))))))))))))))))))))))))))))))))))))))))))))))))\xfddelete t where &(a=1 b=2 )\
\xfeUPDATE t SET a=1\xfdupdate t a=+(1 )\
\xfeUPDATE t SET a=DEFAULT, b=NULL WHERE c=3\xfdupdate t a=* b=+(null ) where c=3\
\xfeUPDATE t SET a=a+1, b = b*2-3*c*'4'\xfdupdate t a=+(a )+(1 ) b=+(b 2 )-(3 c '4' )\
\xfeUPDATE t SET a=-1 - -2+b\xfdupdate t a=+(-1 )-(-2 )+(b )\
\xfeUPDATE t SET a=b-1\xfdupdate t a=+(b )-(1 )\
\xfeUPDATE t SET a=a+\xfd1064\
\xfeUPDATE t SET a=*a\xfd1064\
\xfeUPDATE t SET a=(a)\xfd1064\
\xfeUPDATE t SET a=DEFAULT+1\xfd1064\
\xfeUPDATE t SET a\xfd1064\
\xfeUPDATE t SET\xfd1064\
\xfeUPDATE t a=1\xfd1064\
\xfeUPDATE t SET a=1,\xfd1064\
\xfeUPDATE t SET a=1 b=2\xfd1064\
\xfeUPDATE t SET a<1\xfd1064\
\xfeCREATE TABLE t (a INT)\xfdtable t a int, ''\
\xfeCREATE TABLE t (a INTEGER, b BIGINT)\xfdtable t a int, b big, ''\
\xfeCREATE TABLE t (a int unsigned, b bigint UNSIGNED)\xfdtable t a uint, b ubig, ''\
\xfeCREATE TABLE t (a INT(1), b BIGINT(255), c INTEGER(11) UNSIGNED)\xfdtable t a int, b big, c uint, ''\
\xfeCREATE TABLE t (a INT(0))\xfd1064\
\xfeCREATE TABLE t (a INT(256))\xfd1064\
\xfeCREATE TABLE t (a INT())\xfd1064\
\xfeCREATE TABLE t (a INT(-1))\xfd1064\
\xfeCREATE TABLE t (a VARCHAR(20), b VARBINARY(70000))\xfdtable t a char20 ci, b bin70000, ''\
\xfeCREATE TABLE t (a VARCHAR)\xfd1064\
\xfeCREATE TABLE t (a VARCHAR(20) UNSIGNED)\xfd1064\
\xfeCREATE TABLE t (a TEXT)\xfd1064\
\xfeCREATE TABLE t (a)\xfd1064\
\xfeCREATE TABLE t ()\xfd1064\
\xfeCREATE TABLE t (a INT,)\xfd1064\
\xfeCREATE TABLE t (a INT NOT NULL)\xfdtable t a int not, ''\
\xfeCREATE TABLE t (a INT NULL)\xfdtable t a int, ''\
\xfeCREATE TABLE t (a INT NOT NULL NULL)\xfd1064\
\xfeCREATE TABLE t (a INT NULL NULL)\xfd1064\
\xfeCREATE TABLE t (a INT NOT)\xfd1064\
\xfeCREATE TABLE t (a INT DEFAULT 5 NOT NULL)\xfdtable t a int not =5, ''\
\xfeCREATE TABLE t (a INT DEFAULT NULL)\xfdtable t a int =null, ''\
\xfeCREATE TABLE t (a INT DEFAULT)\xfd1064\
\xfeCREATE TABLE t (a INT DEFAULT 1 DEFAULT 1)\xfd1064\
\xfeCREATE TABLE t (a VARCHAR(3) DEFAULT 'x')\xfdtable t a char3 ci ='x', ''\
\xfeCREATE TABLE t (a VARCHAR(3) CHARACTER SET ascii)\xfdtable t a char3 ci, ''\
\xfeCREATE TABLE t (a VARCHAR(3) COLLATE ascii_bin)\xfdtable t a char3 bin, ''\
\xfeCREATE TABLE t (a VARCHAR(3) COLLATE ASCII_GENERAL_CI NOT NULL CHARACTER SET ASCII)\xfdtable t a char3 ci not, ''\
\xfeCREATE TABLE t (a VARCHAR(3) COLLATE utf8_bin)\xfd1064\
\xfeCREATE TABLE t (a VARCHAR(3) CHARACTER SET utf8)\xfd1064\
\xfeCREATE TABLE t (a VARCHAR(3) CHARSET ascii)\xfd1064\
\xfeCREATE TABLE t (a VARCHAR(3) CHARACTER ascii)\xfd1064\
\xfeCREATE TABLE t (a VARCHAR(3) COLLATE ascii_bin COLLATE ascii_bin)\xfd1064\
\xfeCREATE TABLE t (a VARCHAR(3) CHARACTER SET ascii CHARACTER SET ascii)\xfd1064\
\xfeCREATE TABLE t (a VARCHAR(3) COLLATE `ascii_bin`)\xfd1064\
\xfeCREATE TABLE t (a INT COLLATE ascii_bin)\xfd1064\
\xfeCREATE TABLE t (a VARBINARY(3) CHARACTER SET ascii)\xfd1064\
\xfeCREATE TABLE t (a BIGINT CHARACTER SET ascii)\xfd1064\
\xfeCREATE TABLE t (a INT PRIMARY KEY)\xfdtable t a int, primary(a ) ''\
\xfeCREATE TABLE t (a INT PRIMARY KEY COMMENT 'cf' NOT NULL)\xfdtable t a int not, primary(a ) ''\
\xfeCREATE TABLE t (a INT PRIMARY)\xfd1064\
\xfeCREATE TABLE t (a INT PRIMARY KEY PRIMARY KEY)\xfd1064\
\xfeCREATE TABLE t (a INT KEY)\xfd1064\
\xfeCREATE TABLE t (a INT UNIQUE)\xfd1064\
\xfeCREATE TABLE t (a INT COMMENT 'x')\xfdtable t a int, ''\
\xfeCREATE TABLE t (a INT COMMENT 'x' COMMENT 'y')\xfd1064\
\xfeCREATE TABLE t (a INT COMMENT)\xfd1064\
\xfeCREATE TABLE t (a INT COMMENT = 'x')\xfd1064\
\xfeCREATE TABLE t (a INT, PRIMARY KEY (a))\xfdtable t a int, primary(a ) ''\
\xfeCREATE TABLE t (PRIMARY KEY (a, b) COMMENT 'c')\xfdtable t primary(a b )c ''\
\xfeCREATE TABLE t (PRIMARY KEY k (a))\xfd1064\
\xfeCREATE TABLE t (PRIMARY (a))\xfd1064\
\xfeCREATE TABLE t (PRIMARY KEY ())\xfd1064\
\xfeCREATE TABLE t (KEY k (a))\xfdtable t key k(a ) ''\
\xfeCREATE TABLE t (INDEX k (a,b) COMMENT 'rev:x')\xfdtable t key k(a b )rev:x ''\
\xfeCREATE TABLE t (KEY (a))\xfd1064\
\xfeCREATE TABLE t (KEY k)\xfd1064\
\xfeCREATE TABLE t (UNIQUE k (a))\xfdtable t unique k(a ) ''\
\xfeCREATE TABLE t (UNIQUE KEY k (a))\xfdtable t unique k(a ) ''\
\xfeCREATE TABLE t (UNIQUE INDEX k (a) COMMENT \"c\")\xfdtable t unique k(a )c ''\
\xfeCREATE TABLE t (UNIQUE KEY INDEX k (a))\xfd1064\
\xfeCREATE TABLE t (UNIQUE (a))\xfd1064\
\xfeCREATE TABLE t (a INT PRIMARY KEY, KEY k (a), b INT, UNIQUE l (b), PRIMARY KEY (b))\xfdtable t a int, b int, primary(a ) key k(a ) unique l(b ) primary(b ) ''\
\xfeCREATE TABLE t (KEY `primary` (a))\xfdtable t key primary(a ) ''\
\xfeCREATE TABLE t (KEY primary (a))\xfd1064\
\xfeCREATE TABLE t (`key` INT)\xfdtable t key int, ''\
\xfeCREATE TABLE t (key INT)\xfd1064\
\xfeCREATE TABLE t (comment INT COMMENT 'x')\xfdtable t comment int, ''\
\xfeCREATE TABLE IF NOT EXISTS t (a INT)\xfdtable t a int, '' mild\
\xfeCREATE TABLE IF EXISTS t (a INT)\xfd1064\
\xfeCREATE TABLE IF NOT t (a INT)\xfd1064\
\xfeCREATE TABLE t a INT\xfd1064\
\xfeCREATE TABLE t\xfd1064\
\xfeCREATE t (a INT)\xfd1064\
\xfeCREATE TABLE t (a VARCHAR(3), b VARCHAR(3) CHARACTER SET ascii, c VARCHAR(3) COLLATE ascii_general_ci) \xfdtable t a char3 ci, b char3 ci, c char3 ci, ''\
\xfeCREATE TABLE t (a VARCHAR(3), b VARCHAR(3) CHARACTER SET ascii, c VARCHAR(3) COLLATE ascii_general_ci) COLLATE ascii_bin\xfdtable t a char3 bin, b char3 ci, c char3 ci, ''\
\xfeCREATE TABLE t (a VARCHAR(3), b VARCHAR(3) CHARACTER SET ascii, c VARCHAR(3) COLLATE ascii_general_ci) DEFAULT COLLATE=ascii_bin\xfdtable t a char3 bin, b char3 ci, c char3 ci, ''\
\xfeCREATE TABLE t (a VARCHAR(3), b VARCHAR(3) CHARACTER SET ascii, c VARCHAR(3) COLLATE ascii_general_ci) COLLATE = ascii_general_ci\xfdtable t a char3 ci, b char3 ci, c char3 ci, ''\
\xfeCREATE TABLE t (a VARCHAR(3), b VARCHAR(3) CHARACTER SET ascii, c VARCHAR(3) COLLATE ascii_general_ci) CHARSET ascii\xfdtable t a char3 ci, b char3 ci, c char3 ci, ''\
\xfeCREATE TABLE t (a VARCHAR(3), b VARCHAR(3) CHARACTER SET ascii, c VARCHAR(3) COLLATE ascii_general_ci) DEFAULT CHARACTER SET = ascii COLLATE ascii_bin\xfdtable t a char3 bin, b char3 ci, c char3 ci, ''\
\xfeCREATE TABLE t (a VARCHAR(3), b VARCHAR(3) CHARACTER SET ascii, c VARCHAR(3) COLLATE ascii_general_ci) ENGINE=ROCKSDB\xfdtable t a char3 ci, b char3 ci, c char3 ci, '' engine ROCKSDB\
\xfeCREATE TABLE t (a VARCHAR(3), b VARCHAR(3) CHARACTER SET ascii, c VARCHAR(3) COLLATE ascii_general_ci) engine Select\xfdtable t a char3 ci, b char3 ci, c char3 ci, '' engine Select\
\xfeCREATE TABLE t (a VARCHAR(3), b VARCHAR(3) CHARACTER SET ascii, c VARCHAR(3) COLLATE ascii_general_ci) ENGINE `x`\xfd1064\
\xfeCREATE TABLE t (a VARCHAR(3), b VARCHAR(3) CHARACTER SET ascii, c VARCHAR(3) COLLATE ascii_general_ci) ENGINE = 'x'\xfd1064\
\xfeCREATE TABLE t (a VARCHAR(3), b VARCHAR(3) CHARACTER SET ascii, c VARCHAR(3) COLLATE ascii_general_ci) ENGINE\xfd1064\
\xfeCREATE TABLE t (a VARCHAR(3), b VARCHAR(3) CHARACTER SET ascii, c VARCHAR(3) COLLATE ascii_general_ci) DEFAULT ENGINE=x\xfd1064\
\xfeCREATE TABLE t (a VARCHAR(3), b VARCHAR(3) CHARACTER SET ascii, c VARCHAR(3) COLLATE ascii_general_ci) COMMENT='a b'\xfdtable t a char3 ci, b char3 ci, c char3 ci, 'a b'\
\xfeCREATE TABLE t (a VARCHAR(3), b VARCHAR(3) CHARACTER SET ascii, c VARCHAR(3) COLLATE ascii_general_ci) COMMENT \"x\"\xfdtable t a char3 ci, b char3 ci, c char3 ci, 'x'\
\xfeCREATE TABLE t (a VARCHAR(3), b VARCHAR(3) CHARACTER SET ascii, c VARCHAR(3) COLLATE ascii_general_ci) COMMENT 5\xfd1064\
\xfeCREATE TABLE t (a VARCHAR(3), b VARCHAR(3) CHARACTER SET ascii, c VARCHAR(3) COLLATE ascii_general_ci) DEFAULT COMMENT 'x'\xfd1064\
\xfeCREATE TABLE t (a VARCHAR(3), b VARCHAR(3) CHARACTER SET ascii, c VARCHAR(3) COLLATE ascii_general_ci) DEFAULT\xfd1064\
\xfeCREATE TABLE t (a VARCHAR(3), b VARCHAR(3) CHARACTER SET ascii, c VARCHAR(3) COLLATE ascii_general_ci) , ENGINE=a, COMMENT='b', CHARSET=ascii, COLLATE=ascii_bin\xfdtable t a char3 bin, b char3 ci, c char3 ci, 'b' engine a\
\xfeCREATE TABLE t (a VARCHAR(3), b VARCHAR(3) CHARACTER SET ascii, c VARCHAR(3) COLLATE ascii_general_ci) ENGINE=a,\xfd1064\
\xfeCREATE TABLE t (a VARCHAR(3), b VARCHAR(3) CHARACTER SET ascii, c VARCHAR(3) COLLATE ascii_general_ci) ,,ENGINE=a\xfd1064\
\xfeCREATE TABLE t (a VARCHAR(3), b VARCHAR(3) CHARACTER SET ascii, c VARCHAR(3) COLLATE ascii_general_ci) ENGINE=a COMMENT 'b', DEFAULT CHARSET=ascii\xfdtable t a char3 ci, b char3 ci, c char3 ci, 'b' engine a\
\xfeCREATE TABLE t (a VARCHAR(3), b VARCHAR(3) CHARACTER SET ascii, c VARCHAR(3) COLLATE ascii_general_ci) ENGINE=a ENGINE=a\xfd1064\
\xfeCREATE TABLE t (a VARCHAR(3), b VARCHAR(3) CHARACTER SET ascii, c VARCHAR(3) COLLATE ascii_general_ci) COMMENT 'a' COMMENT 'a'\xfd1064\
\xfeCREATE TABLE t (a VARCHAR(3), b VARCHAR(3) CHARACTER SET ascii, c VARCHAR(3) COLLATE ascii_general_ci) COLLATE ascii_bin COLLATE ascii_bin\xfd1064\
\xfeCREATE TABLE t (a VARCHAR(3), b VARCHAR(3) CHARACTER SET ascii, c VARCHAR(3) COLLATE ascii_general_ci) CHARSET ascii CHARACTER SET ascii\xfd1064\
\xfeCREATE TABLE t (a VARCHAR(3), b VARCHAR(3) CHARACTER SET ascii, c VARCHAR(3) COLLATE ascii_general_ci) CHARSET utf8\xfd1064\
\xfeCREATE TABLE t (a VARCHAR(3), b VARCHAR(3) CHARACTER SET ascii, c VARCHAR(3) COLLATE ascii_general_ci) CHARACTER ascii\xfd1064\
\xfeCREATE TABLE t (a VARCHAR(3), b VARCHAR(3) CHARACTER SET ascii, c VARCHAR(3) COLLATE ascii_general_ci) WITH\xfd1064\
\xfeDROP TABLE t\xfddrop t\
\xfeDROP TABLE IF EXISTS `u`\xfddrop u mild\
\xfeDROP TABLE IF NOT EXISTS u\xfd1064\
\xfeDROP TABLE t, u\xfd1064\
\xfeDROP t\xfd1064\
\xfeCREATE INDEX k ON t (a)\xfdindex t key k(a )\
\xfeCREATE UNIQUE INDEX k ON t (a, b) COMMENT 'c'\xfdindex t unique k(a b )c\
\xfeCREATE KEY k ON t (a)\xfd1064\
\xfeCREATE UNIQUE k ON t (a)\xfd1064\
\xfeCREATE INDEX k t (a)\xfd1064\
\xfeCREATE INDEX ON t (a)\xfd1064\
\xfeCREATE INDEX k ON t\xfd1064\
\xfeDROP INDEX k ON t\xfddrop t.k\
\xfeDROP INDEX k\xfd1064\
\xfeBEGIN INDEX k ON t (a)\xfdbegin t key k(a )\
\xfeBEGIN UNIQUE INDEX k ON t (a) COMMENT 'x'\xfdbegin t unique k(a )x\
\xfeBEGIN UNIQUE k ON t (a)\xfd1064\
\xfeBEGIN WORK INDEX k ON t (a)\xfd1064\
\xfeFINISH INDEX k ON t\xfdfinish t.k\
\xfeFINISH INDEX k\xfd1064\
\xfeFINISH k ON t\xfd1064\
\xfeCANCEL INDEX k ON t\xfdcancel t.k\
\xfeCANCEL INDEX k ON t (a)\xfd1064\
\xfeBEGIN\xfdbegin\
\xfebegin work\xfdbegin\
\xfeBEGIN TRANSACTION\xfd1064\
\xfeSTART TRANSACTION\xfdbegin\
\xfeSTART TRANSACTION WITH CONSISTENT SNAPSHOT\xfdsnapshot\
\xfeSTART\xfd1064\
\xfeSTART TRANSACTION WITH SNAPSHOT\xfd1064\
\xfeSTART WORK\xfd1064\
\xfeCOMMIT\xfdcommit\
\xfeCOMMIT WORK\xfdcommit\
\xfeCOMMIT 1\xfd1064\
\xfeROLLBACK\xfdrollback\
\xfeROLLBACK WORK\xfdrollback\
\xfeROLLBACK TO a\xfdto a\
\xfeROLLBACK WORK TO SAVEPOINT a\xfdto a\
\xfeROLLBACK TO savepoint\xfdto savepoint\
\xfeROLLBACK TO SAVEPOINT savepoint\xfdto savepoint\
\xfeROLLBACK TO SAVEPOINT `to`\xfdto to\
\xfeROLLBACK TO SAVEPOINT a b\xfd1064\
\xfeROLLBACK TO SAVEPOINT to\xfd1064\
\xfeROLLBACK TO\xfd1064\
\xfeROLLBACK SAVEPOINT a\xfd1064\
\xfeROLLBACK TO 1\xfd1064\
\xfeSAVEPOINT a\xfdsavepoint a\
\xfeSAVEPOINT savepoint\xfdsavepoint savepoint\
\xfeSAVEPOINT\xfd1064\
\xfeRELEASE SAVEPOINT a\xfdrelease a\
\xfeRELEASE a\xfd1064\
\xfeLOCK TABLES t READ\xfdlock (t )\
\xfeLOCK TABLES t WRITE, `u` READ\xfdlock (t u )\
\xfeLOCK TABLES t\xfd1064\
\xfeLOCK TABLE t READ\xfd1064\
\xfeLOCK TABLES t READ WRITE\xfd1064\
\xfeLOCK TABLES\xfd1064\
\xfeUNLOCK TABLES\xfdunlock\
\xfeUNLOCK\xfd1064\
\xfeSESSION a\xfdsession a\
\xfeSESSION\xfd1064\
\xfeDISCONNECT\xfddisconnect\
\xfeDISCONNECT a\xfd1064\
\xfeWORK 0\xfdwork 0\
\xfeWORK 1000000\xfdwork 1000000\
\xfeWORK 1000001\xfd1064\
\xfeWORK\xfd1064\
\xfeWORK -1\xfd1064\
\xfeWORK a\xfd1064\
\xfe\xfd1064\
\xfe \xfd1064\
\xfe5\xfd1064\
\xfe`select` * FROM t\xfd1064\
\xfeSHOW TABLES\xfd1064\
\xfeALTER TABLE t ADD a INT\xfd1064\
\xfeSELECT * FROM t WHERE a=1 GROUP BY a\xfd1064\
\xfe/* a */SELECT/*b*/ *\n\tFROM -- c\n t # d\xfdselect * t\
\xfeSELECT * FROM t --\xfdselect * t\
\xfeSELECT * FROM t 'a\xfd1064\
\xfeSELECT * FROM t /* a\xfd1064\
\xfeSELECT * FROM t ?\xfd1064\
\xfeINSERT INTO t VALUES ('\x80')\xfd1064\
\xfeINSERT INTO t VALUES (0x)\xfd1064\
\xfeINSERT INTO t VALUES (x'4')\xfd1064\
\xfeINSERT INTO t VALUES (0X41)\xfd1064\
\xfeSELECT * FROM t WHERE k=0x41OR j=1\xfdselect * t where |(k=x'A' j=1 )\
\xfeDROP TABLE IF EXISTS `u`\xfddrop u mild\
\xfeCREATE TABLE `u` (`id` bigint(20) NOT NULL, `n` varchar(20) CHARACTER SET ascii COLLATE ascii_general_ci DEFAULT NULL, PRIMARY KEY (`id`), KEY `k` (`n`) COMMENT 'rev:cf1') ENGINE=ROCKSDB DEFAULT CHARSET=ascii\xfdtable u id big not, n char20 ci =null, primary(id ) key k(n )rev:cf1 '' engine ROCKSDB\
\xfeLOCK TABLES `u` WRITE\xfdlock (u )\
\xfeINSERT INTO `u` VALUES (1,'bob'),(2,'Al')\xfdinsert u (1 'bob' ) (2 'Al' )\
\xfeUNLOCK TABLES\xfdunlock\
\xfeSELECT * FROM u ORDER BY n\xfdselect * u +n\
";
