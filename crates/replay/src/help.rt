//! What the program tells of itself.

/// What `--help` writes.
pub const HELP: &str = "\
pg_replay records clients that are served over relations of intervals, and verifies recordings: whether the server's
replies are still those of the conversation's rules.

usage: pg_replay record FILE PID KEY
       pg_replay listen tcp PORT FILE FOLDER [COUNT]
       pg_replay listen unix PATH FILE FOLDER [COUNT]
       pg_replay verify FILE
       pg_replay --help | --version

record  serves one client over the relations in FILE. Its bytes come on standard input, and the recording goes to
        standard output: the client's bytes, the calls of the cancel registry, the replies, and how it ended. The client
        is told PID (1 to 2147483647) and KEY (8 to 512 hexadecimal digits, an even number). No query is canceled.
listen  serves the clients that come to 127.0.0.1:PORT (1 to 65535), or to a Unix socket made at PATH, each on a thread
        of its own over the relations in FILE. A client is told a PID, 1 for the first one, 2 for the second. When it has
        gone, its recording is written to FOLDER/PID.rec. A file that is there is whole, and one of an earlier run is
        replaced. A recording that isn't kept is told on standard error, as `recording 7: too long`, and its client is
        served all the same. Clients may cancel each other's queries, and each recording has the registry's answers.
        After COUNT clients (0 to 10000), or when it can't go on, it takes in no more, and ends when each client has
        gone. PATH must be free, or a socket at which no server listens, which is taken over; at the end the socket is
        removed. SIGINT and SIGTERM end the program and its clients at once, and those clients have no recording.
verify  reads a recording on standard input, serves its client once more over FILE, and writes one line:
          same       the recorded calls, replies and end are those that the rules give
          calls N    the calls of the registry differ first at place N, counted from 0
          replies N  the bytes of the replies differ first at place N
          end        the ends differ

A relation in FILE is a header line (name, number of unready polls, column names), then a line for each row, of
intervals as PostgreSQL prints them. Tabs separate the fields, an empty line separates relations.

Examples:
  pg_replay record data/rosters 7 01020304 < client > recording
  pg_replay verify data/rosters < recording
  mkdir recordings
  pg_replay listen tcp 5433 data/rosters recordings &
  psql -h 127.0.0.1 -p 5433 -c shifts
  sleep 1; pg_replay verify data/rosters < recordings/1.rec

Exit status, and the line on standard error:
  0   recorded, or the same, or all clients were served and each recording that was made is kept
  2   wrong words                                                usage: ..
  3   FILE is refused                                            line N: REASON, or file too long
  4   a read of standard input failed                            read fault
  5   a write failed, or a file in FOLDER can't be written       write fault, or recording PID: write fault
  6   1000000000 reads and polls were spent (record)             turn limit
  7   memory ran out, or no random bytes for a key (listen)      out of memory, or recording PID: out of memory
  8   the number of a client is taken (listen)                   pid is taken
  9   FILE can't be read                                         file fault
  12  the place can't be bound, or no client taken in (listen)   accept fault
  13  a thread can't be started (listen)                         spawn fault
  20  another verdict than same (verify)                         no line
  21  over 268435456 bytes of the client or of replies (record)  too long
      over 16777216 bytes of a client or of replies (listen)     recording PID: too long
  22  no recording, or over 536871936 bytes (verify)             bad recording

A client that can't be served to its end (a read or a write failed, or 1000000000 reads and polls were spent) has no
recording: `listen` tells `recording PID: given up`, which has no status. Of several recordings that aren't kept the
first one decides the status, and what ends listening comes before them.
";

/// What `--version` writes.
pub const VERSION: &str = "pg_replay 0.1.0\n";
