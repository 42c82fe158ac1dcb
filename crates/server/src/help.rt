//! What the program tells of itself.

/// What `--help` writes.
pub const HELP: &str = "\
relation_server serves relations of intervals to clients that speak PostgreSQL's protocol, versions 3.0 and 3.2.

usage: relation_server listen tcp PORT FILE [COUNT]
       relation_server listen unix PATH FILE [COUNT]
       relation_server serve FILE PID KEY [TURNS]
       relation_server demo SEED N
       relation_server --help | --version

listen  takes in connections at 127.0.0.1:PORT (1 to 65535), or at a Unix socket made at PATH, and serves each on a
        thread of its own over the relations of FILE. After COUNT connections (0 to 10000), or when it can't go on, it
        takes in no more, and ends when each client has been served. PATH must be free, or a socket at which no server
        listens, which is taken over; at the end the socket is removed. SIGINT and SIGTERM end the server and its
        clients at once.
serve   serves one client: its bytes come on standard input, the replies go to standard output. The client is told
        PID (1 to 2147483647) and KEY (an even number of hexadecimal digits, 8 to 512; in 3.0 the first eight). It has
        TURNS reads and polls (default 1000000000).
demo    generates N relations (0 to 10000) from SEED (0 to 18446744073709551615), serves a client that reads them all,
        and counts relations, rows, and the bytes that came in and went out.

A relation in FILE is a header line (name, number of unready polls, column names), then a line for each row, of
intervals as PostgreSQL prints them. Tabs separate the fields, an empty line separates relations.

Queries are a relation's name, BEGIN, COMMIT, and COPY name TO STDOUT. The startup parameter IntervalStyle chooses how
intervals are printed: postgres, postgres_verbose, iso_8601 or sql_standard.

Examples:
  relation_server listen tcp 5433 data/rosters &
  psql -h 127.0.0.1 -p 5433 -c shifts
  relation_server listen unix /tmp/.s.PGSQL.5433 data/rosters &
  psql -h /tmp -p 5433 -c shifts
  relation_server serve data/rosters 7 01020304 < client > replies
  relation_server demo 7 10000

Exit status: 0 done; 2 wrong words; 3 FILE is refused; 4 a read failed; 5 a write failed; 6 TURNS were spent;
7 out of memory, or no random bytes for a key; 8 the pid is taken; 9 FILE can't be read; 10 a bad frame; 11 a fatal
error; 12 the place can't be bound, or a connection can't be accepted; 13 a thread can't be started. Each status but 0
comes with a line on standard error.
";

/// What `--version` writes.
pub const VERSION: &str = "relation_server 0.1.0\n";
