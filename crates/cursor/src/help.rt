//! What the program tells of itself.

/// What `--help` writes.
pub const HELP: &str = "\
pg_cursor serves relations of intervals to clients that speak PostgreSQL's protocol, with cursors in simple queries.

usage: pg_cursor listen tcp PORT FILE [COUNT]
       pg_cursor listen unix PATH FILE [COUNT]
       pg_cursor serve FILE PID KEY [TURNS]
       pg_cursor --help | --version

listen  takes in connections at 127.0.0.1:PORT (1 to 65535), or at a Unix socket made at PATH, and serves each on a
        thread of its own over the relations of FILE. After COUNT connections (0 to 10000), or when it can't go on, it
        takes in no more, and ends when each client has been served. PATH must be free, or a socket at which no server
        listens, which is taken over; at the end the socket is removed. SIGINT and SIGTERM end the server and its
        clients at once.
serve   serves one client: its bytes come on standard input, the replies go to standard output. The client is told
        PID (1 to 2147483647) and KEY (an even number of hexadecimal digits, 8 to 512; in 3.0 the first eight). It has
        TURNS reads and polls (default 1000000000).

Queries are a relation's name, BEGIN, COMMIT, and COPY name TO STDOUT, and the commands of cursors:

  DECLARE c CURSOR FOR name   makes the portal c over a relation
  FETCH n FROM c              its next n rows (1 to 2147483647)
  FETCH ALL FROM c            its rows that are left
  CLOSE c                     removes the portal; a name that isn't there is no error

Key words are in either case, and whitespace and semicolons at both ends count for nothing. A cursor needs no transaction.
Any other words are a query: DECLARE c NO SCROLL CURSOR WITH HOLD FOR name is none of these commands.

A relation in FILE is a header line (name, number of unready polls, column names), then a line for each row, of
intervals as PostgreSQL prints them. Tabs separate the fields, an empty line separates relations.

Examples:
  pg_cursor listen tcp 5434 data/rosters &
  psql -h 127.0.0.1 -p 5434 -c 'DECLARE c CURSOR FOR shifts' -c 'FETCH 2 FROM c'
  pg_cursor listen unix /tmp/.s.PGSQL.5434 data/rosters &
  psql -h /tmp -p 5434 -c 'DECLARE c CURSOR FOR shifts' -c 'FETCH ALL FROM c'
  pg_cursor serve data/rosters 7 01020304 < client > replies
  pg_cursor --version

Exit status: 0 done; 2 wrong words; 3 FILE is refused; 4 a read failed; 5 a write failed; 6 TURNS were spent;
7 out of memory, or no random bytes for a key; 8 the pid is taken; 9 FILE can't be read; 10 a bad frame; 11 a fatal
error; 12 the place can't be bound, or a connection can't be accepted; 13 a thread can't be started. Each status but 0
comes with a line on standard error.
";

/// What `--version` writes.
pub const VERSION: &str = "pg_cursor 0.1.0\n";
