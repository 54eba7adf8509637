//! Dense tables of a plan.

ghost use Rattle.rx_spec.specs.declared.Form.{Form};
ghost use Rattle.rx_image.specs.Pairs.{Pair};
ghost use Rattle.rx_regex.specs.Written.{IsDenseTable, dense_tables};

use crate::PlanTable;
use crate::form::TableForm;
use crate::planned::table_builder;
use rx_build::BuildError;
use rx_dense::OwnedDFA;
use rx_expr::Expr;
use rx_image::{DenseRead, DenseWrite, Tables, dense_pair};
use rx_pair::Regex;
use rx_plan::Plan;
use rx_wire::Order;
use std::alloc::{AllocError, Global};

impl TableForm for OwnedDFA {
    ghost form = { Form.Dense };

    ghost pair = { Pair.Dense };

    ghost IsTable = { IsDenseTable };

    fn build(
        alloc: Global,
        exprs: &[Expr],
        plan: &Plan,
        which: PlanTable,
    ) -> Result<OwnedDFA, BuildError> {
        prove!(plan.quit.halves().1 >> 127 <= 1);
        let table = table_builder(plan, which).build_one(alloc, exprs, which.direction())?;
        Ok(table)
    }

    fn image(&self, alloc: Global, order: Order) -> Result<Vec<u8>, AllocError> {
        match order {
            Order::Little => Ok(self.to_bytes_little_endian(alloc)?.0),
            Order::Big => Ok(self.to_bytes_big_endian(alloc)?.0),
        }
    }

    fn read_back(&self, alloc: Global) -> Result<OwnedDFA, AllocError> {
        let (image, _) = self.to_bytes_little_endian(alloc)?;
        match OwnedDFA::from_bytes(alloc, &image) {
            Ok((back, _)) => Ok(back),
            Err(_) => Err(AllocError),
        }
    }

    fn pair_image(
        alloc: Global,
        order: Order,
        both: &Regex<OwnedDFA>,
    ) -> Result<Vec<u8>, AllocError> {
        dense_pair(alloc, order, both.forward(), both.reverse())
    }

    fn own(_alloc: Global, tables: Tables<'_>) -> Result<Regex<OwnedDFA>, AllocError> {
        match tables {
            Tables::Dense(forward, reverse) => Ok(Regex::new(forward, reverse)),
            Tables::Sparse(..) => Err(AllocError),
        }
    }

    ghost are_tables = { dense_tables };
}
