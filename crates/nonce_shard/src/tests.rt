//! What no clause says: that each call succeeds with ample memory, and that the definitions fit
//! worked rows.
mod generated;
mod rows;
