ghost use Rattle.std.specs.Prelude.{◌≡◌, List};
ghost use Rattle.funnel_model.specs.declared.event.Event.{Event};
ghost use Rattle.line_proto.specs.Requests.{requested};
ghost use Rattle.line_proto.specs.Services.{AnswersAsked, Caller};

use crate::request::Request;
use funnel_model::Reply;

/// What answers a client's requests, one after another: a pass of an engine.
pub trait Service {
    // The pass, the limits of its engine, and the configuration that this was opened with.
    ghost caller: { Self → Caller };

    // The history as the pass has seen it.
    ghost front: { Self → List Event };

    /// Answers a request.
    fn call(&mut self, request: &Request<'_>) -> Reply
        ensures caller { caller self.new ≡ caller self.old }
        ensures answers { AnswersAsked (caller self.old) (front self.old) (front self.new) (requested request.now) result };
}
