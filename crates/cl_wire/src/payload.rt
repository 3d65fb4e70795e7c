//! A body as contracts see it.
ghost use Rattle.std.specs.Prelude.{◌≡◌, IfOk};
ghost use Rattle.cl_wire.specs.Message.{content_of};

use crate::Body;
use cl_types::NoMemory;
use std::alloc::Global;
use std::marker::Model;

/// A body as contracts see it: what it says, without the room of its lists.
#[derive(Debug, Drop)]
pub struct Payload {
    body: Body,
}

impl Model for Payload {
    ghost use Rattle.cl_wire.specs.Message.{Content, content_of};

    ghost Value = { Content };

    ghost view = { λ payload. content_of payload.body };
}

impl Payload {
    /// The body as a payload. It allocates nothing.
    pub fn new(body: Body) -> Payload
        ensures { result ≡ content_of body }
    {
        Payload { body }
    }

    /// The body of the payload.
    pub fn body(&self) -> &Body
        ensures { content_of result.now ≡ self.now }
    {
        &self.body
    }

    /// The body of the payload, which is used up.
    pub fn into_body(self) -> Body
        ensures { content_of result ≡ self }
    {
        self.body
    }

    /// Another payload that says the same.
    ///
    /// It allocates for values and lists alone and runs in linear time; no contract says so.
    pub fn copy(&self, alloc: Global) -> Result<Payload, NoMemory>
        ensures { IfOk result (λ copy. copy ≡ self.now) }
    {
        let body = self.body.copy(alloc)?;
        Ok(Payload { body })
    }
}
