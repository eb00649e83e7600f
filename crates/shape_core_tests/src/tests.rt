mod building;
mod defaults;
mod faults;
mod lookups;
mod made;
mod texts;
mod values;
