// The counts of the parts that an edge is made of, lent along.
ghost use Rattle.arch.specs.Table.{Table};

// The counts for 0, 1, .., n of the family that has `D` if d, and whose arches span v + 1.
#[derive(Drop)]
pub(crate) struct Parts {
    pub(crate) d: bool,
    pub(crate) v: usize,
    pub(crate) n: usize,
    pub(crate) table: [u64; 46],
    ghost full: { Table d v n table },
}
