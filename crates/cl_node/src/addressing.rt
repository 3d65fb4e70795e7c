//! Which virtual node a message is for.
ghost use Rattle.std.specs.Prelude.{◌≡◌, ◌<◌};
ghost use Rattle.cl_node.specs.Addressing.{addressed};
ghost use Rattle.cl_wire.specs.Message.{content_of};

use cl_wire::Body;

/// The virtual node that a message is for, of so many.
pub(crate) fn addressed(nodes: u32, body: &Body) -> Option<u32>
    requires { 0 < nodes }
    ensures { result ≡ addressed nodes (content_of body.now) }
{
    match body {
        Body::Bare | Body::Outcome(..) => None,
        Body::Answer(_, txn, ..) | Body::Vote(_, txn) | Body::Inquire(_, txn) => {
            Some(txn.session % nodes)
        }
        Body::Command(v, ..)
        | Body::Ask(v, ..)
        | Body::Prepare(v, ..)
        | Body::Finish(v, ..)
        | Body::Decision(v, ..)
        | Body::Log(v, ..)
        | Body::LogAck(v, ..)
        | Body::Repair(v, ..)
        | Body::Records(v, ..)
        | Body::Names(v, ..)
        | Body::CopyAck(v, ..) => Some(*v),
    }
}
