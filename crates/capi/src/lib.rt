// The C interface: thin exported functions over the libraries, without any logic of their own. A slice is a pointer and a
// count of elements; a struct comes back by value. `include/nahuitepol.h` declares them for C.
//
// Each promise is that of the library's call, said of the struct that C sees.
#![tactic(auto)]

pub mod checks; // checks.rt: the overlap check
pub mod logs; // logs.rt: the log test, the lookup and the writer
pub mod probes; // probes.rt: the tables of a probe
pub mod searches; // searches.rt: the two scans
