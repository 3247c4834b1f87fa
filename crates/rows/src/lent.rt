//! Lent rows for more than one kind of grade.
use crate::Row;
use grades::{Mass, MassPrice, Wait};

/// Lent rows, one slice for each kind of grade that a sheet's goal names.
#[derive(Drop)]
pub struct RowTables<'a> {
    pub mass: &'a mut [Row<Mass>],
    pub wait: &'a mut [Row<Wait>],
    pub mass_price: &'a mut [Row<MassPrice>],
}
