//! What a node decides: each message goes to the replica of the virtual node that it is for.
use crate::NodeCore;
use crate::addressing::addressed;
use crate::slot::hand_over;
use cl_actor::Core;
use cl_post::OutList;
use cl_roster::{Roster, VIRTUAL_NODES_MAX, rosters_are_lawful};
use cl_steps::Steps;
use cl_types::Refused;
use cl_wire::Body;

impl Core for NodeCore {
    ghost use Rattle.std.specs.Prelude.{[]};
    ghost use Rattle.cl_node.specs.Marks.{sends_fewer_by_mark};
    ghost use Rattle.cl_node.specs.Node.{NodeState, DeliveryFits, AnyLineFits, delivered_node, fed_node, first_node, is_delivery_spent, is_line_spent};
    ghost use Rattle.cl_node.specs.NodeCore.{IsNodeState};

    ghost State = { NodeState };

    ghost is_state = { IsNodeState };

    ghost will_be = { IsNodeState };

    ghost first = { λ nodes spares me. first_node nodes me };

    ghost delivered = { delivered_node };

    ghost fed = { fed_node };

    ghost is_delivery_spent = { is_delivery_spent };

    ghost is_line_spent = { is_line_spent };

    ghost delivery_fits = { DeliveryFits };

    ghost line_fits = { AnyLineFits };

    ghost transcript = { λ core. [] };

    fn deliver(&mut self, roster: &Roster, from: u32, body: &Body) -> Result<Steps, Refused> {
        rosters_are_lawful(roster);
        let Some(v) = addressed(roster.nodes(), body) else {
            return Ok(Steps::new(self.alloc));
        };
        let index = v as usize;
        if index >= VIRTUAL_NODES_MAX {
            return Ok(Steps::new(self.alloc));
        }
        hand_over(&mut self.replicas[index], self.alloc, roster, from, body)
    }

    fn feed(
        &mut self,
        _roster: &Roster,
        _line: u64,
        _text: &[u8],
        _said: &OutList,
    ) -> Result<Steps, Refused> {
        Ok(Steps::new(self.alloc))
    }

    fn settle(&mut self) {}

    ghost fewer_by_mark = { sends_fewer_by_mark };
}
