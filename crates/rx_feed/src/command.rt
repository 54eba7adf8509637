//! The command: an image, and a text after it.

ghost use Rattle.std.specs.Prelude.{◌≡◌, ◌≤◌, IfOk, Err};
ghost use Rattle.rx_spec.specs.declared.Form.{Form};
ghost use Rattle.rx_base.specs.Outside.{Rose};
ghost use Rattle.rx_base.specs.Search.{mode_of};
ghost use Rattle.rx_feed.specs.Run.{FeedEnds};

use crate::fault::Fault;
use crate::stream::{PIECE, feed_read};
use rx_base::{Anchored, Sink, Source};
use rx_dense::OwnedDFA;
use rx_image::{DenseRead, SparseRead};
use rx_sparse::DFA as SparseDFA;
use rx_spec::Form;
use rx_transfer::read_up_to;
use std::alloc::Global;

/// Runs the command `feed`. The first `len` bytes of the source are an image in this form, the rest is the text. Writes
/// a line for each match that the image's table reports, as soon as the text decides it, and returns the status.
///
/// All memory is taken before the first byte of the text is read.
pub fn feed<S: Source, K: Sink>(
    alloc: Global,
    form: Form,
    mode: Anchored,
    len: usize,
    src: &mut S,
    out: &mut K,
) -> Result<u8, Fault>
    ensures ends { FeedEnds form (mode_of mode) len (record {
      left_before = S.left src.old;
      left_after = S.left src.new;
      written_before = K.written out.old;
      written_after = K.written out.new;
    }) result }
    ensures few { IfOk result (λ status. status ≤ 4) }
    ensures cut { result ≡ Err Fault.Source → Rose (S.faults src.old) (S.faults src.new) }
    ensures failed { result ≡ Err Fault.Sink → Rose (K.faults out.old) (K.faults out.new) }
    ensures source_faults { S.faults src.old ≤ S.faults src.new }
    ensures sink_faults { K.faults out.old ≤ K.faults out.new }
{
    let mut buffer = [0; PIECE];
    let mut image = Vec::new(alloc);
    let over = read_up_to(src, &mut buffer, &mut image, len)?;
    match form {
        Form::Dense => {
            let read = OwnedDFA::from_bytes(alloc, &image);
            feed_read(read, mode, over, &mut buffer, src, out)
        }
        Form::Sparse => {
            let read = SparseDFA::<&[u8]>::from_bytes(alloc, &image);
            feed_read(read, mode, over, &mut buffer, src, out)
        }
    }
}
