//! The class of each byte in an image.

ghost use Rattle.std.specs.Prelude.{◌≡◌, length, IfSome, is_some};
ghost use Rattle.rx_base.specs.ByteClasses.{AreClasses};
ghost use Rattle.rx_image_parts.specs.Classes.{are_classes};

use rx_base::ByteClasses;

/// The classes that some bytes spell, or `None` if they spell none.
pub fn classes_of(bytes: &[u8]) -> Option<ByteClasses>
    requires { length bytes.now ≡ 256 }
    ensures value { IfSome result (λ classes. classes ≡ bytes.now) }
    ensures exactly { is_some result ≡ are_classes bytes.now }
    ensures classes { IfSome result (λ _. AreClasses bytes.now) }
{
    ByteClasses::from_bytes(bytes)
}
