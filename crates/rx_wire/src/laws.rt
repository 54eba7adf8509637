//! What was written is read back, whatever bytes follow.
//!
//! Each function has an empty body, and its clauses are the laws.

ghost use Rattle.std.specs.Prelude.{ℕ, ◌+◌, ◌^◌, ◌<◌, ◌≤◌, List, length};
ghost use Rattle.std.specs.Int.{w16, w32, w128};
ghost use Rattle.rx_spec.specs.Causes.{max_id};
ghost use Rattle.rx_wire.specs.declared.order.Order.{Order};
ghost use Rattle.rx_wire.specs.declared.order.Order.TheVariants.{Little};
ghost use Rattle.rx_wire.specs.Kinds.{Kind, Reads};
ghost use Rattle.rx_wire.specs.Fields.{bytes_at, field, id_at, number_at};
ghost use Rattle.rx_wire.specs.Heads.{IsLabel, endianness_check_at, endianness_word, label_at, label_text, order_at};
ghost use Rattle.rx_wire.specs.Heads.{padded, version_at};

/// Numbers, in either byte order.
#[tactic(auto, using(crate::proofs::Fields::numbers_again))]
pub fn numbers_are_read_back()
    ensures two { (order : Order) (n : ℕ) → n < 2 ^ 16 → Reads (number_at order w16) (field order w16 n) n }
    ensures four { (order : Order) (n : ℕ) → n < 2 ^ 32 → Reads (number_at order w32) (field order w32 n) n }
    ensures sixteen { (order : Order) (n : ℕ) → n < 2 ^ 128 → Reads (number_at order w128) (field order w128 n) n }
{}

/// Ids in either byte order, and plain bytes.
#[tactic(auto, using(crate::proofs::Fields::id_again, crate::proofs::Fields::bytes_again))]
pub fn ids_and_bytes_are_read_back()
    ensures id { (kind : ℕ → Kind) (order : Order) (n : ℕ)
        → n ≤ max_id → Reads (id_at kind order) (field order w32 n) n }
    ensures bytes { (bytes : List ℕ) → Reads (bytes_at (length bytes)) bytes bytes }
{}

/// Labels, the word that marks the byte order, and versions.
#[tactic(auto, using(crate::proofs::Heads::checks_again))]
pub fn checks_are_read_back()
    ensures label { (label : List ℕ)
        → IsLabel label → Reads (label_at label) (label_text label) (padded (length label + 1)) }
    ensures order { (order : Order) → Reads order_at (field order w32 endianness_word) order }
    ensures little { Reads endianness_check_at (field Little w32 endianness_word) endianness_word }
    ensures version { (version : ℕ) (order : Order)
        → version < 2 ^ 32 → Reads (version_at version order) (field order w32 version) version }
{}
