//! Data that tests give.
use std::alloc::{AllocError, Global};
use wm_data::{Data, DataBuilder, DataFault, Value};

/// The Data of a builder, unless what was put was refused.
fn built(builder: DataBuilder, put: Result<(), DataFault>) -> Result<Data, AllocError> {
    match put {
        Ok(()) => builder.build().map_err(|_| AllocError),
        Err(_) => Err(AllocError),
    }
}

/// Data of one value.
pub fn data_of(alloc: Global, key: &str, value: Value) -> Result<Data, AllocError> {
    match String::from_str(alloc, key) {
        Ok(key) => {
            let mut builder = DataBuilder::new(alloc);
            let put = builder.put(key, value);
            built(builder, put)
        }
        Err(refused) => {
            drop(value);
            Err(refused)
        }
    }
}
