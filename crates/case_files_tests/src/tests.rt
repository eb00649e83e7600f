mod faults;
mod files;
