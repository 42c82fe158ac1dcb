//! What the program tells of itself.

/// What `--help` writes.
pub const HELP: &str = "\
rota_report prints rotas: from a start, the intervals of a relation's column lead from one moment to the next.

usage: rota_report lines FILE RELATION COLUMN START STYLE
       rota_report clashes FILE RELATION COLUMN START RELATION COLUMN START
       rota_report --help | --version

lines    writes a line for each interval: its number, the moment that it starts from, the interval; then `end`, the last
         moment, and the total of the intervals. Tabs separate the fields.
clashes  writes a line `i j` for each shift i of the first rota and j of the second that share a moment. Shift i begins at
         moment i and ends just before moment i + 1. Numbers count from 0.

RELATION and COLUMN name the first column of that name in FILE. START is YYYY-MM-DDTHH:MM:SS, in the years 0001 to 9999.
STYLE prints intervals: postgres, postgres_verbose, iso_8601 or sql_standard. An interval's months are added first, to the
same day of a later month, or to its last day where it has no such day; then its days; then its time.

A relation in FILE is a header line (name, number of unready polls, column names), then a line for each row, of
intervals as PostgreSQL prints them. Tabs separate the fields, an empty line separates relations.

Examples:
  rota_report lines data/rosters shifts starts 2024-01-31T08:00:00 postgres
  rota_report clashes data/rosters shifts starts 2024-01-31T08:00:00 leave granted 2024-02-01T00:00:00
  rota_report --version

Exit status: 0 done; 2 wrong words; 3 FILE is refused; 5 a write failed; 7 out of memory; 9 FILE can't be read; 20 no such
relation or column; 21 a step leads out of the years 1 to 9999; 22 the total is no interval. Each status but 0 comes with a
line on standard error.
";

/// What `--version` writes.
pub const VERSION: &str = "rota_report 0.1.0\n";
