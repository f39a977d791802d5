//! Each module tests the library that it is named after, by its public calls. A test's rows stand in tables, each row beside the name
//! by which a failure tells it.

mod fixtures;
mod flows;
mod lent;
mod op_rows;
mod plans;
mod platforms;
mod programmes;
mod routings;
mod schedules;
mod table_rows;
mod tables;
mod unrolled_tables;
