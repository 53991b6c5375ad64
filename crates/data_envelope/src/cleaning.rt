ghost use Rattle.std.specs.Prelude.{◌≡◌, ℕ, ◌≤◌, Bool, true, false, None, IfOk, OnOk};
ghost use Rattle.model_history.specs.Vector.{IdentitySet, united};
ghost use Rattle.model_history.specs.History.{History};
ghost use Rattle.model_history.specs.Cuts.{without};
ghost use Rattle.base_vectors.specs.Vectors.{IsNormal, number_at};
ghost use Rattle.data_markers.specs.Marks.{mark_of, performed_in};

use base_bytes::Memory;
use base_vectors::{Id, VersionVector};
use data_lattice::Replica;
use data_markers::Markers;
use std::alloc::Global;

/// Drops what data and versions have of identities with a performed mark.
fn drop_performed<T: Replica>(value: &mut T, versions: &mut VersionVector, markers: &Markers)
    requires { IsNormal versions.old }
    ensures kind { T.kind_of value.new ≡ T.kind_of value.old }
    ensures state { (log : History T.Op) (held : ℕ → ℕ) (gone : IdentitySet) → T.IsDataOf value.old log held gone → T.IsDataOf value.new log held (united gone (performed_in markers.now)) }
    ensures forgotten { (id : ℕ) → performed_in markers.now id ≡ true → T.mentioned value.new id ≡ false }
    ensures normal { IsNormal versions.new }
    ensures numbers { (i : ℕ) → number_at versions.new i ≡ without (performed_in markers.now) (number_at versions.old) i }
{
    for number in 0..markers.limit() {
        if let Some(id) = Id::new(number) {
            if markers.performed(id) {
                value.clean(id);
                versions.without(id);
            }
        }
    }
}

/// Copies of data and versions, without what they have of identities with a performed mark.
pub(crate) fn cleaned_copy<T: Replica>(
    alloc: Global,
    value: &T,
    versions: &VersionVector,
    markers: &Markers,
) -> Result<(T, VersionVector), Memory>
    ensures kind { IfOk result (λ kept. T.kind_of kept.0 ≡ T.kind_of value.now) }
    ensures state { (log : History T.Op) (held : ℕ → ℕ) (gone : IdentitySet) → T.IsDataOf value.now log held gone → IfOk result (λ kept. T.IsDataOf kept.0 log held (united gone (performed_in markers.now))) }
    ensures forgotten { (id : ℕ) → performed_in markers.now id ≡ true → IfOk result (λ kept. T.mentioned kept.0 id ≡ false) }
    ensures normal { OnOk result (IsNormal versions.now) }
    ensures numbers { (i : ℕ) → IfOk result (λ kept. number_at kept.1 i ≡ without (performed_in markers.now) (number_at versions.now) i) }
{
    let mut value = value.copy(alloc)?;
    let mut versions = versions.copy(alloc)?;
    drop_performed(&mut value, &mut versions, markers);
    Ok((value, versions))
}
