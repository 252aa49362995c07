// The first bytes of tokens (MS-TDS, Packet Data Token Stream Definition).
//
// Every other byte is refused: LOGINACK, which answers a login; TABNAME and COLINFO, which serve
// browse mode; ALTMETADATA and ALTROW, which serve COMPUTE; and FEATUREEXTACK, SESSIONSTATE, SSPI and
// FEDAUTHINFO, which belong to features that a client negotiates.

// The bytes of ROW and NBCROW are in `tds_rows`, which goes on over them.
pub(crate) use tds_rows::{NBCROW, ROW};

/// RETURNSTATUS.
pub(crate) const RETURNSTATUS: u8 = 0x79;
/// COLMETADATA.
pub(crate) const COLMETADATA: u8 = 0x81;
/// ORDER.
pub(crate) const ORDER: u8 = 0xA9;
/// ERROR.
pub(crate) const ERROR: u8 = 0xAA;
/// INFO.
pub(crate) const INFO: u8 = 0xAB;
/// RETURNVALUE.
pub(crate) const RETURNVALUE: u8 = 0xAC;
/// ENVCHANGE.
pub(crate) const ENVCHANGE: u8 = 0xE3;
/// DONE.
pub(crate) const DONE: u8 = 0xFD;
/// DONEPROC.
pub(crate) const DONEPROC: u8 = 0xFE;
/// DONEINPROC.
pub(crate) const DONEINPROC: u8 = 0xFF;
