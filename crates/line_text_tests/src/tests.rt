//! Texts over devices, what is put at once, records beside those of `csv`, and services.
mod devices;
mod histories;
mod judgings;
mod limits;
mod made;
mod pieces;
mod records;
mod services;
mod texts;
