//! The length of the rows of a sparse table, by the states of the build.
//!
//! Each function has an empty body, and its clauses are the laws.

ghost use Rattle.std.specs.Prelude.{◌≡◌, ◌≢◌, ◌<◌, ◌≤◌, All, AllPairs, Bool, List};
ghost use Rattle.rx_spec.specs.Builds.{Build, IsReached};
ghost use Rattle.rx_spec.specs.Causes.{Exceeds, max_id};
ghost use Rattle.rx_spec.specs.Sizes.{sparse_bound, sparse_size};
ghost use Rattle.rx_spec.specs.States.{State};
ghost use Rattle.rx_dense.specs.Layouts.{Layout};
ghost use Rattle.rx_sparse.specs.Sparse.{sparse_len};
ghost use Rattle.rx_sparse_build.specs.Measured.{IsBounded, IsMeasured};

/// The rows of a table that is its build's powerset machine have as many bytes as the definition `sparse_size` counts
/// for its states. Any other distinct reached states count at most as much.
pub fn rows_are_as_long_as_their_states()
    ensures exactly { (b : Build) (byte_classes accelerate : Bool) (l : Layout)
        → (is : IsMeasured b byte_classes accelerate l)
        → sparse_len l ≡ sparse_size b byte_classes accelerate is.power.states }
    ensures greatest { (b : Build) (byte_classes accelerate : Bool) (l : Layout) (states : List State)
        → IsMeasured b byte_classes accelerate l → AllPairs (λ x y. x ≢ y) states → All (IsReached b) states
        → sparse_size b byte_classes accelerate states ≤ sparse_len l }
{}

/// So the rows have more bytes than there are ids exactly if some reached states count more.
pub fn long_rows_are_long_states()
    ensures passed { (b : Build) (byte_classes accelerate : Bool) (l : Layout)
        → IsMeasured b byte_classes accelerate l → max_id < sparse_len l
        → Exceeds b (sparse_size b byte_classes accelerate) max_id }
    ensures fits { (b : Build) (byte_classes accelerate : Bool) (l : Layout)
        → IsMeasured b byte_classes accelerate l → sparse_len l ≤ max_id
        → Exceeds b (sparse_size b byte_classes accelerate) max_id → ⊥ }
{}

/// If a word distinguishes any two rows and the rows have more bytes than there are ids, then the bound `sparse_bound`
/// of some reached states exceeds the ids too.
pub fn long_rows_have_a_long_bound()
    ensures { (b : Build) (byte_classes : Bool) (l : Layout)
        → IsBounded b byte_classes l → max_id < sparse_len l → Exceeds b (sparse_bound b byte_classes) max_id }
{}
