//! Scripts with the states that they go through.

/// A script; its replies, parted by `~`; how many of its commits there are after so many replies; a question, and its answers after so
/// many commits, parted by `~`. In replies and answers a `/` stands for the end of a line.
#[derive(Clone, Copy)]
pub(crate) struct Case {
    pub(crate) script: &'static [u8],
    pub(crate) replies: &'static str,
    pub(crate) commits: &'static [usize],
    pub(crate) question: &'static [u8],
    pub(crate) answers: &'static str,
}

/// Two rows and refusals.
pub(crate) const ROWS: Case = Case {
    script: b"CREATE TABLE t (id BIGINT NOT NULL, v BIGINT, PRIMARY KEY (id)); INSERT INTO t VALUES (2,5); INSERT INTO t VALUES (-1,0); INSERT INTO t VALUES (2,6); SELECT * FROM t; SELECT * FROM r;",
    replies: "OK 0/~OK 1/~OK 1/~ERROR 1062/~ROWS 2/-1\t0/2\t5/~ERROR 1146/",
    commits: &[0, 1, 2, 3, 3, 3, 3],
    question: b"SELECT * FROM t;",
    answers: "ERROR 1146/~ROWS 0/~ROWS 1/2\t5/~ROWS 2/-1\t0/2\t5/",
};

/// A table with a unique key and rows that expire, of which one has at moment 12; an index that is filled, used and dropped; a
/// transaction with a savepoint in another session; and a second table.
pub(crate) const WHOLE: Case = Case {
    script: b"CREATE TABLE a (id BIGINT NOT NULL, n VARCHAR(9) COLLATE ascii_general_ci, d BIGINT UNSIGNED NOT NULL, PRIMARY KEY (id), UNIQUE KEY w (n) COMMENT 'rev:f') COMMENT='ttl_duration=10;ttl_col=d;'; INSERT INTO a VALUES (1,'Ab ',50),(2,'b',2),(3,NULL,50); WORK 3; BEGIN INDEX k ON a (d); WORK 1; SESSION s; BEGIN; UPDATE a SET n='c' WHERE id=3; SAVEPOINT p; DELETE FROM a WHERE id=1; ROLLBACK TO p; COMMIT; FINISH INDEX k ON a; REPLACE INTO a VALUES (4,'AB',60); WORK 9; DROP INDEX k ON a; WORK 9; DROP TABLE a; WORK 9; CREATE TABLE b (x INT); INSERT INTO b VALUES (1);",
    replies: "OK 0/~OK 3/~OK 0/~OK 0/~OK 0/~OK 0/~OK 0/~OK 1/~OK 0/~OK 1/~OK 0/~OK 0/~OK 0/~OK 2/~OK 0/~OK 0/~OK 0/~OK 0/~OK 0/~OK 0/~OK 1/",
    commits: &[
        0, 1, 2, 2, 2, 2, 2, 2, 2, 2, 2, 2, 3, 4, 5, 5, 6, 6, 7, 7, 8, 9,
    ],
    question: b"SELECT * FROM a; SELECT id FROM a FORCE INDEX (k); SELECT * FROM b;",
    answers: "\
ERROR 1146/ERROR 1146/ERROR 1146/~\
ROWS 0/ERROR 1176/ERROR 1146/~\
ROWS 2/1\tAb \t50/3\tNULL\t50/ERROR 1176/ERROR 1146/~\
ROWS 2/1\tAb \t50/3\tc\t50/ERROR 1176/ERROR 1146/~\
ROWS 2/1\tAb \t50/3\tc\t50/ROWS 2/1/3/ERROR 1146/~\
ROWS 2/3\tc\t50/4\tAB\t60/ROWS 2/3/4/ERROR 1146/~\
ROWS 2/3\tc\t50/4\tAB\t60/ERROR 1176/ERROR 1146/~\
ERROR 1146/ERROR 1146/ERROR 1146/~\
ERROR 1146/ERROR 1146/ROWS 0/~\
ERROR 1146/ERROR 1146/ROWS 1/1/",
};
