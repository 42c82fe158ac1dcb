ghost use Rattle.std.specs.Prelude.{◌≡◌};
ghost use Rattle.pg_types.specs.Types.{oid_of, name_of, type_of_oid};

/// A type of a column or a parameter, by its name in PostgreSQL's catalog `pg_type`.
#[derive(Clone, Copy, Debug, PartialEq, Eq)]
pub enum PgType {
    Bool,
    Bytea,
    Char,
    Name,
    Int8,
    Int2,
    Int4,
    Text,
    Oid,
    Json,
    Float4,
    Float8,
    Unknown,
    Bpchar,
    Varchar,
    Date,
    Time,
    Timestamp,
    Timestamptz,
    Interval,
    IntervalArray,
    Timetz,
    Numeric,
    Void,
    Uuid,
    Jsonb,
}

impl PgType {
    /// The type with this oid in the catalog, or None where it is none of these.
    pub fn from_oid(oid: u32) -> Option<PgType>
        ensures { result ≡ type_of_oid oid }
    {
        let found = match oid {
            16 => PgType::Bool,
            17 => PgType::Bytea,
            18 => PgType::Char,
            19 => PgType::Name,
            20 => PgType::Int8,
            21 => PgType::Int2,
            23 => PgType::Int4,
            25 => PgType::Text,
            26 => PgType::Oid,
            114 => PgType::Json,
            700 => PgType::Float4,
            701 => PgType::Float8,
            705 => PgType::Unknown,
            1042 => PgType::Bpchar,
            1043 => PgType::Varchar,
            1082 => PgType::Date,
            1083 => PgType::Time,
            1114 => PgType::Timestamp,
            1184 => PgType::Timestamptz,
            1186 => PgType::Interval,
            1187 => PgType::IntervalArray,
            1266 => PgType::Timetz,
            1700 => PgType::Numeric,
            2278 => PgType::Void,
            2950 => PgType::Uuid,
            3802 => PgType::Jsonb,
            _ => return None,
        };
        Some(found)
    }

    /// The type's oid in the catalog.
    pub fn oid(self) -> u32
        ensures { result ≡ oid_of self }
    {
        match self {
            PgType::Bool => 16,
            PgType::Bytea => 17,
            PgType::Char => 18,
            PgType::Name => 19,
            PgType::Int8 => 20,
            PgType::Int2 => 21,
            PgType::Int4 => 23,
            PgType::Text => 25,
            PgType::Oid => 26,
            PgType::Json => 114,
            PgType::Float4 => 700,
            PgType::Float8 => 701,
            PgType::Unknown => 705,
            PgType::Bpchar => 1042,
            PgType::Varchar => 1043,
            PgType::Date => 1082,
            PgType::Time => 1083,
            PgType::Timestamp => 1114,
            PgType::Timestamptz => 1184,
            PgType::Interval => 1186,
            PgType::IntervalArray => 1187,
            PgType::Timetz => 1266,
            PgType::Numeric => 1700,
            PgType::Void => 2278,
            PgType::Uuid => 2950,
            PgType::Jsonb => 3802,
        }
    }

    /// The type's name in the catalog.
    pub fn name(self) -> &'static str
        ensures { result.now ≡ name_of self }
    {
        match self {
            PgType::Bool => "bool",
            PgType::Bytea => "bytea",
            PgType::Char => "char",
            PgType::Name => "name",
            PgType::Int8 => "int8",
            PgType::Int2 => "int2",
            PgType::Int4 => "int4",
            PgType::Text => "text",
            PgType::Oid => "oid",
            PgType::Json => "json",
            PgType::Float4 => "float4",
            PgType::Float8 => "float8",
            PgType::Unknown => "unknown",
            PgType::Bpchar => "bpchar",
            PgType::Varchar => "varchar",
            PgType::Date => "date",
            PgType::Time => "time",
            PgType::Timestamp => "timestamp",
            PgType::Timestamptz => "timestamptz",
            PgType::Interval => "interval",
            PgType::IntervalArray => "_interval",
            PgType::Timetz => "timetz",
            PgType::Numeric => "numeric",
            PgType::Void => "void",
            PgType::Uuid => "uuid",
            PgType::Jsonb => "jsonb",
        }
    }
}
