//! The law of links, over every list of events of every actor.
ghost use Rattle.cl_link.specs.Network.{LinksInOrderAndOnce, LinksKeepOrder, LinksArePairs};

/// What an actor accepts from a peer, in order, is a beginning of what the peer gave its link to it, of the length that
/// its link counts. Where the peer never dropped what it kept, a message that counts as acknowledged was accepted.
///
/// It holds whatever is given, marked, due again, dropped, emitted, lost, repeated or reordered.
#[tactic(auto, using(crate::proofs::Networks::in_order_and_once, crate::proofs::Networks::links_keep_order, crate::proofs::Networks::links_are_pairs))]
pub fn in_order_and_once<B>()
    ensures order { LinksInOrderAndOnce B }
    ensures keeps_order { LinksKeepOrder B }
    ensures pairs { LinksArePairs B }
{}
