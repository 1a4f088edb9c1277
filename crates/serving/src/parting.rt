//! Links are given back once all workers have ended.
ghost use Rattle.serving.specs.Back.{CameBack};
ghost use Rattle.serving.specs.Sight.{AreBack, IsCounted, faults_of};

use crate::bound_link::{BoundLink, part};
use outside_core::Harbor;

/// Gives the links back to the harbor, in their order.
pub(crate) fn part_all<H: Harbor>(harbor: &mut H, links: Vec<BoundLink<H::Link>>)
    ensures came_back { CameBack (H.Harbor.came_back harbor.old) (H.Harbor.came_back harbor.new)
        (AreBack links.items) }
    ensures counted { IsCounted (faults_of links.items)
        (H.Harbor.faults harbor.old) (H.Harbor.faults harbor.new) }
{
    for link in links {
        part(harbor, link);
    }
}
