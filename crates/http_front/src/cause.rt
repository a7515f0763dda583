/// Why a request is refused before there is a call. Those that stand first are judged first; after one of the first four
/// the connection is closed, since it isn't known where the next request begins.
#[derive(Clone, Copy, Debug, PartialEq, Eq, Drop)]
pub enum Cause {
    /// The bytes are no head and can't become one, or the head is too long or has too many fields.
    Head,
    /// The body is sent in a coding.
    Coding,
    /// `Content-Length` is no number, or is there more than once. Without it the length of the body is 0.
    Length,
    /// The body is too long.
    Long,
    /// There is no route with this method and target.
    Route,
    /// The body is no document.
    Body,
    /// The body is no text, but bytes that are not UTF-8.
    Text,
    /// The value of the query can't be decoded.
    Query,
}
