//! The program's own worker.
use std::alloc::{AllocError, Global};
use wm_data::{Data, DataBuilder, Value};
use wm_worker::{Answer, DoWork, Signal, Task};

/// Halves the width of a photo. Its first turn tells how far it is, and its second one gives the
/// new width. It fails where its input has no int under `width`.
#[derive(Drop)]
pub struct Resizer;

impl DoWork for Resizer {
    fn do_work(
        &mut self,
        alloc: Global,
        task: &Task,
        k: u32,
        _signal: &Signal,
    ) -> Result<Answer, AllocError> {
        Ok(if k == 0 {
            Answer::More(Some(number(alloc, "percent", 50)?))
        } else {
            match task.input.get("width") {
                Some(Value::Int(width)) => Answer::Success(number(alloc, "width", *width / 2)?),
                _ => Answer::Failure(Data::empty()),
            }
        })
    }
}

/// Data of one number. An empty key is refused as memory is.
pub fn number(alloc: Global, key: &str, number: i32) -> Result<Data, AllocError> {
    let mut builder = DataBuilder::new(alloc);
    match builder.put(String::from_str(alloc, key)?, Value::Int(number)) {
        Ok(()) => builder.build().map_err(|_| AllocError),
        Err(_) => Err(AllocError),
    }
}
