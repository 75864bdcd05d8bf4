//! What each fault means, and what to do. `checks/faults --write` makes this file of clients/bureau_client/faults.csv.

// The line of the fault with this number, if there is one.
pub(crate) fn meaning(number: u8) -> &'static str {
    match number {
        1 =>
            "no period ends the statement in columns 1 to 72 before the file or the next ++: end it with a period, and look whether the file was cut off\n",
        2 =>
            "the list after the verb is missing, or does not hold one id in upper case: write ++HOLD(UA10001), and no list after ++IF\n",
        3 =>
            "parentheses do not match, or a comment does not end, in columns 1 to 72: look for the missing or extra parenthesis from that statement on\n",
        4 =>
            "a character stands where it can't, or a list has no name before it: look at the statement in columns 1 to 72\n",
        5 =>
            "the file has over 67,108,864 bytes: send it in parts: publication --parts makes them\n",
        6 | 17 | 24 | 25 | 38 | 41 | 49 | 54 | 74 =>
            "memory ran out: run it again with more memory\n",
        11 => "the hold or release names none of ERROR, SYSTEM, USER and FIXCAT: add the kind\n",
        12 => "the hold or release names two kinds: make two statements of it\n",
        13 => "the hold or release has no REASON with a value: add REASON(..)\n",
        14 =>
            "a REASON, FMID, CLASS or RESOLVER is not one id in upper case, or there are two: correct the name, and give each one value\n",
        15 =>
            "the DATE is not one date yyddd, or there are two: five digits, of which the last three are a day from 001 to 366\n",
        16 =>
            "a CATEGORY is not 1 to 64 printable characters without blank, quote, parenthesis and comma: correct the category\n",
        21 =>
            "++VER stands before any SYSMOD: begin with the ++PTF, ++APAR, ++USERMOD or ++FUNCTION that it belongs to\n",
        22 =>
            "a SYSMOD, or a value of FMID, PRE, REQ or SUP, is not one id in upper case: correct the name\n",
        26 => "what is published could not be read: look at the disk, and start the desk again\n",
        27 =>
            "++IF stands before any SYSMOD: begin with the ++PTF, ++APAR, ++USERMOD or ++FUNCTION that it belongs to\n",
        28 => "++IF names no function, or more than one (FMID): write ++IF FMID(..) REQ(..)\n",
        31 =>
            "the first line is not the list's header (SYSMOD,STATE or SYSMOD or CATEGORY): make the header the first line\n",
        32 =>
            "the line has another number of fields: look for a comma that is missing, or is one too many\n",
        33 => "the SYSMOD is no id: 1 to 7 characters of A-Z 0-9 @ # $, in upper case\n",
        34 => "the STATE is none of APPLIED, ACCEPTED and SUPERSEDED: correct the STATE\n",
        35 =>
            "the pattern is no category, and no beginning of one with * at its end, or has over 64 bytes: correct the pattern\n",
        36 => "the SYSMOD came before with another state: keep one of the two records\n",
        37 =>
            "a zone has over 40,000 records, a received list over 20,000, or there are over 64 patterns: leave out what does not matter\n",
        42 =>
            "the store can't be opened, or its device failed: see that its folder is there and may be written, that no desk has it open, and that it is a database; docs/OPERATIONS.md has each case\n",
        43 =>
            "there is no room for the store on its device: make room, and run it again; where init has made the file, remove it first\n",
        44 =>
            "STORE is not there or is no store; for init: it has tables already; for check: the table that is named is wrong: give the right path; of a wrong table, docs/OPERATIONS.md tells more\n",
        45 => "the store is of another version: bureau migrate makes one of version 1 a new one\n",
        46 => "the first line of the callers file is not NAME,TOKEN: write it there\n",
        47 =>
            "the record of the callers file is no caller, or its name or token came before, or it is the 10,001st: a name of 1 to 7 of A-Z 0-9 @ # $, and a token of 8 to 64 of A-Z a-z 0-9 - . _ ~, each once\n",
        48 => "the callers file names no PUBLISH: add the publisher with its token\n",
        51 =>
            "a connection could not be read, or a request came too late: the client asks again; look at it, and at the network\n",
        52 =>
            "a connection could not be written, or a reply was not taken in time: the client asks again; look at it, and at the network\n",
        53 =>
            "a connection ended inside a request: the client asks again; look at it, and at the network\n",
        61 => "this would be the 65th zone: drop a zone that is no longer wanted\n",
        71 => "a file can't be read: see that it is there, is no folder, and may be read\n",
        72 =>
            "the output can't be written: see that the disk or the pipe takes it, and run it again\n",
        73 =>
            "the desk can't listen on the port, or the system tells no more of connections: take another port, or end what uses it; after LISTENING, start the desk again\n",
        75 =>
            "the file has no statement that the bureau reads: send HOLDDATA or SYSMODs as lines of text in ASCII or UTF-8, not packed and not in EBCDIC; publication makes such text of other forms\n",
        _ => "docs/FAULTS.md has the faults\n",
    }
}
