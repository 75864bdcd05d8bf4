//! Texts for people who run the program. `docs/FAULTS.md` has the same table, with what to do.

/// The text of `--version`.
pub const VERSION: &str = "0.1.0";

/// The text below the commands in `--help`.
pub const STATUSES_AND_FAULTS: &str = "\
Exit status: 0 done; 1 the input is refused; 2 the words are not understood, or ask for help or the version;
3 the machine fails (a device, memory). Where it is 1 or 3, standard error has FAULT, a number and, where
there is one, the line on which the statement begins, or the record of a list (32 to 36, 47). errsysmods,
missingfix and chain tell the file after it. With --explain they and check tell on a second line what it means.

 1 no period ends the statement, up to column 72 of its lines, or ++ begins a line before it
 2 the list after the verb is missing, or is not one id, or follows ++IF
 3 parentheses do not match, up to column 72 of each line, or a comment does not end
 4 a character stands where it cannot
 5 the source, or a list of a report, has over 67,108,864 bytes
11 a hold has no kind: ERROR, SYSTEM, USER or FIXCAT
12 a hold has two kinds
13 a hold has no REASON
14 a name is not one id: 1 to 7 of A-Z 0-9 @ # $
15 a DATE is not yyddd
16 a CATEGORY is not one: 1 to 64 characters
21 ++VER stands before every SYSMOD
22 a SYSMOD, or a value of FMID, PRE, REQ or SUP, is not one id
27 ++IF stands before every SYSMOD
28 ++IF has no FMID, or not just one value of it
31 the list does not begin with its header: SYSMOD,STATE or SYSMOD or CATEGORY
32 a record has another number of fields
33 a SYSMOD is no id
34 a STATE is none of APPLIED, ACCEPTED and SUPERSEDED
35 a pattern is no category, and no beginning of one with * at its end
36 a SYSMOD came before with another state
37 the list has more records than it may have
42 the store cannot be opened, or its device failed
43 there is no room for the store on its device
44 the file is no store; or, for init, it is one already; or, for check, the table is wrong
45 the store is of another version: see migrate
46 the callers file does not begin with NAME,TOKEN
47 a record is no caller: an id and a token of 8 to 64 of A-Z a-z 0-9 - . _ ~, neither of which came before
48 no caller is named PUBLISH
71 a file cannot be read
72 the output cannot be written
73 the port cannot be listened on, or no longer
75 a file of a report has no statement
6, 17, 24, 25, 38, 41, 49, 54, 74 memory ran out";
