//! Sparse tables of a plan.

ghost use Rattle.rx_spec.specs.declared.Form.{Form};
ghost use Rattle.rx_image.specs.Pairs.{Pair};
ghost use Rattle.rx_regex.specs.Written.{IsSparseTable, sparse_tables};

use crate::PlanTable;
use crate::form::TableForm;
use crate::planned::table_builder;
use rx_build::BuildError;
use rx_expr::Expr;
use rx_image::{SparseRead, SparseWrite, Tables, sparse_pair};
use rx_pair::Regex;
use rx_plan::Plan;
use rx_sparse::DFA;
use rx_wire::Order;
use std::alloc::{AllocError, Global};

impl TableForm for DFA<Vec<u8>> {
    ghost form = { Form.Sparse };

    ghost pair = { Pair.Sparse };

    ghost IsTable = { IsSparseTable };

    fn build(
        alloc: Global,
        exprs: &[Expr],
        plan: &Plan,
        which: PlanTable,
    ) -> Result<DFA<Vec<u8>>, BuildError> {
        prove!(plan.quit.halves().1 >> 127 <= 1);
        table_builder(plan, which).build_one_sparse(alloc, exprs, which.direction())
    }

    fn image(&self, alloc: Global, order: Order) -> Result<Vec<u8>, AllocError> {
        match order {
            Order::Little => self.to_bytes_little_endian(alloc),
            Order::Big => self.to_bytes_big_endian(alloc),
        }
    }

    fn read_back(&self, alloc: Global) -> Result<DFA<Vec<u8>>, AllocError> {
        let image = self.to_bytes_little_endian(alloc)?;
        match DFA::<&[u8]>::from_bytes(alloc, &image) {
            Ok((lent, _)) => lent.to_owned(alloc),
            Err(_) => Err(AllocError),
        }
    }

    fn pair_image(
        alloc: Global,
        order: Order,
        both: &Regex<DFA<Vec<u8>>>,
    ) -> Result<Vec<u8>, AllocError> {
        sparse_pair(alloc, order, both.forward(), both.reverse())
    }

    fn own(alloc: Global, tables: Tables<'_>) -> Result<Regex<DFA<Vec<u8>>>, AllocError> {
        match &tables {
            Tables::Sparse(forward, reverse) => {
                let forward = forward.to_owned(alloc)?;
                let reverse = reverse.to_owned(alloc)?;
                Ok(Regex::new(forward, reverse))
            }
            Tables::Dense(..) => Err(AllocError),
        }
    }

    ghost are_tables = { sparse_tables };
}
