//! Tells which slots a field may have.
ghost use Rattle.asn_dynamic_values.specs.DynView.{dyn_value};
ghost use Rattle.asn_model.specs.ShapeView.{presence_view};
ghost use Rattle.asn_model.specs.Value.{is_kept, may_lack};
ghost use Rattle.std.specs.Prelude.{◌≡◌};

use asn_dynamic_values::{DynValue, is_plain};
use asn_model::PresenceShape;

/// Returns whether a field with this value is written, and not left out as the field's default.
pub fn is_kept(presence: &PresenceShape, value: &DynValue) -> bool
    ensures { result ≡ is_kept (presence_view presence.now) (dyn_value value.now) }
{
    match presence {
        PresenceShape::Default(plain) => !is_plain(plain, value),
        PresenceShape::Required => true,
        PresenceShape::Optional => true,
    }
}

/// Returns whether a field may be absent.
pub fn may_lack(presence: &PresenceShape) -> bool
    ensures { result ≡ may_lack (presence_view presence.now) }
{
    match presence {
        PresenceShape::Required => false,
        PresenceShape::Optional => true,
        PresenceShape::Default(_) => true,
    }
}
