// The rules of the array once more, as plainly as they can be written, to compare the array with. It shares no code with the array:
// products are made bit by bit by `bitwise`, lost columns are found by elimination, and every call walks the log anew.
pub mod calls;
pub mod checks;
pub mod device;
