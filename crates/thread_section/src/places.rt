ghost use Rattle.std.specs.Prelude.{◌≡◌};
ghost use Rattle.world_places.specs.Places.{identity_at};
ghost use Rattle.thread_section.specs.Places.{AreIdentities};

use base_vectors::Id;
use member_views::View;
use thread_cluster::places::Identities;

/// The identity of the member at a place, if there is one.
fn identity_at(view: &View, place: u8) -> Option<Id>
    ensures { result ≡ identity_at view.now place }
{
    view.members()
        .iter()
        .find(|member| member.place == place)
        .map(|member| member.id)
}

/// The identities of a view's members, by place.
pub fn identities(view: &View) -> Identities
    ensures { AreIdentities view.now result }
{
    Identities {
        p0: identity_at(view, 0),
        p1: identity_at(view, 1),
        p2: identity_at(view, 2),
        p3: identity_at(view, 3),
        p4: identity_at(view, 4),
        p5: identity_at(view, 5),
        p6: identity_at(view, 6),
        p7: identity_at(view, 7),
    }
}
