// Messages of the PostgreSQL frontend/backend protocol: their values, their bytes, and the frames
// of a stream.
#![tactic(auto)]

mod backend;
mod codec;
mod copy;
mod data;
mod division;
mod extendedquery;
mod fields;
mod frames;
mod frontend;
mod headers;
mod put;
mod response;
mod secret_key;
mod simplequery;
mod startup;
mod typed;
mod values;

pub use backend::PgWireBackendMessage;
pub use codec::{
    DecodeContext, FrameError, PgWireMessageServerCodec, ProtocolVersion, put_copied, put_row,
};
pub use copy::{CopyBothResponse, CopyData, CopyDone, CopyFail, CopyInResponse, CopyOutResponse};
pub use data::{
    DataRow, FORMAT_CODE_BINARY, FORMAT_CODE_TEXT, FieldDescription, NoData, ParameterDescription,
    RowDescription,
};
pub use division::{
    bad_stays_bad, context_follows_division, divisions_join, frame_is_no_rest, has_division,
    more_bytes_keep_frames, no_frame_begins_another, one_division, one_frame, texts_of_frames,
    unfinished_is_not_bad,
};
pub use extendedquery::{
    Bind, BindComplete, Close, CloseComplete, Describe, Execute, Flush, Parse, ParseComplete,
    PgSync, PortalSuspended, TARGET_TYPE_BYTE_PORTAL, TARGET_TYPE_BYTE_STATEMENT,
};
pub use frontend::PgWireFrontendMessage;
pub use headers::{header_len, told_len, typed_len};
pub use response::{
    CommandComplete, EmptyQueryResponse, ErrorInfo, ErrorResponse, GssEncResponse, ReadyForQuery,
    SslResponse, TransactionStatus,
};
pub use secret_key::{KeyError, SecretKey};
pub use simplequery::{Query, query_text};
pub use startup::{
    AuthenticationOk, BackendKeyData, CancelRequest, PROTOCOL_3_0, PROTOCOL_3_2, ParameterStatus,
    SslNegotiationKind, Startup, Terminate,
};
pub use typed::{TypedMessage, decode_typed};
pub use values::{PgBytes, PgList, PgStr};
