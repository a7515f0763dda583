use crate::cause::Cause;
use funnel_model::Reply;

/// How a reply is written in the body of a response.
#[derive(Clone, Copy, Debug, PartialEq, Eq, Drop)]
pub enum Shape {
    /// As a JSON object.
    Object,
    /// The same, and with a text the number of its document, which is this.
    Document(u64),
    /// The numbers of the engine in Prometheus' text format, and any other reply as an object.
    Metrics,
}

/// What a response tells.
#[derive(Debug, Drop)]
pub enum Outcome {
    /// The reply to what the request asks for, or that no memory was found for its body.
    Replied(Shape, Reply),
    /// There was no call.
    Refused(Cause),
}
