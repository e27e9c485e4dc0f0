//! The rules of the table at a node.

ghost use Rattle.std.specs.Prelude.{◌≡◌, ◌<◌, length, MatchOption, Some};
ghost use Rattle.rule_views.specs.declared.view.Found.{Found};
ghost use Rattle.rule_graph.specs.declared.place.Place.{Place};
ghost use Rattle.rule_graph.specs.Graph.{IsFormed};
ghost use Rattle.rule_graph.specs.Found.{IsInstance, IsKept, NoRuleAt};

use crate::node::Node;
use crate::place::{Place, input};
use rule_find::find;
use rule_views::Found;

/// The first rule of the table that matches a node, a COPY passed, and what it makes of it.
pub fn find_at<'a>(nodes: &'a [Node], at: u32) -> Option<Found<Place<'a>>>
    requires formed { IsFormed nodes.now }
    requires inside { at < length nodes.now }
    ensures found { MatchOption result (NoRuleAt nodes.now at) (λ f. IsInstance nodes.now at f) }
    ensures kept { (f : Found Place) → result ≡ Some f → IsKept nodes.now at f.made }
{
    find(input(nodes, at))
}
