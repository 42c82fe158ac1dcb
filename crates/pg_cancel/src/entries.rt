use pg_messages::SecretKey;

/// A call of the registry. Each but `Register` is made under the number of a live registration.
#[derive(Debug, PartialEq, Eq, Drop)]
pub enum RegistryCall {
    /// Registers a connection's process id and secret key.
    Register(i32, SecretKey),
    /// The registration starts a query, for which no cancel has come yet.
    Start,
    /// Asks whether the query was canceled since it was started.
    Ask,
    /// Cancels the query of the live registration that has this process id and now has this secret
    /// key.
    Cancel(i32, SecretKey),
    /// From now on the registration's secret key is the first four bytes of the one that it has.
    Narrow,
    /// Ends the registration.
    Unregister,
}

/// An answer of the registry.
#[derive(Clone, Copy, Debug, PartialEq, Eq)]
pub enum RegistryAnswer {
    /// The registration stands, and its number is the place of this entry.
    Registered,
    /// The live registration at this place has the process id.
    Taken(u64),
    /// A `Start`, a `Narrow` or an `Unregister` was done.
    Done,
    /// To `Ask`: the query was canceled. To `Cancel`: there is such a registration.
    Yes,
    /// To `Ask`: the query was not canceled. To `Cancel`: there is no such registration.
    No,
}

/// One entry of the history: the number under which the call was made, the call, and its answer.
/// The number of a `Register` is the entry's own place, counted from 0.
#[derive(Debug, PartialEq, Eq, Drop)]
pub struct Entry {
    pub number: u64,
    pub call: RegistryCall,
    pub answer: RegistryAnswer,
}
