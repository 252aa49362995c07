// Cells, by how they are read (MS-TDS, ROW).

pub(crate) mod chunk_runs;
pub(crate) mod gathered;
pub(crate) mod lengths;
pub(crate) mod null;
pub(crate) mod passed;
pub(crate) mod streamed;
