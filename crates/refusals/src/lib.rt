// Tests of what is said of a line that is wrong. The line's number, the word and what was wanted are in the contract of
// `assemble`; the wording is only tested, here.
#![tactic(auto)]

#[cfg(test)]
mod tests {
    use assembly::assemble;
    use std::alloc::Global;
    use std::test::Fail;

    fn said(heap: Global, text: &str) -> Result<String, Fail> {
        match assemble(heap, text.as_bytes()) {
            Ok(script) => {
                drop(script);
                Err(Fail::new("a script was made"))
            }
            Err(failure) => Ok(format!(in heap; "{failure}")?),
        }
    }

    #[test]
    fn a_number_too_large_on_the_third_line(rt: HostRuntime) -> Result<(), Fail> {
        let words = said(rt.alloc(), "send\n\nfire 256\njump\n")?;
        assert_eq!(rt;
            words.as_str(),
            "line 3: 256: expected a number up to 255 (node)"
        );
        Ok(())
    }

    #[test]
    fn a_field_left_out(rt: HostRuntime) -> Result<(), Fail> {
        let words = said(rt.alloc(), "hand-in sender 7 serial 1")?;
        assert_eq!(rt; words.as_str(), "line 1: serial: expected stop");
        Ok(())
    }

    #[test]
    fn a_line_that_ends_too_soon(rt: HostRuntime) -> Result<(), Fail> {
        let words = said(rt.alloc(), "restart 0 left")?;
        assert_eq!(rt;
            words.as_str(),
            "line 1: the end of the line: expected a number up to 4294967295 (left)"
        );
        Ok(())
    }

    #[test]
    fn a_word_too_many(rt: HostRuntime) -> Result<(), Fail> {
        let words = said(rt.alloc(), "# opening\nshow me # the way")?;
        assert_eq!(rt; words.as_str(), "line 2: me: expected the end of the line");
        Ok(())
    }

    #[test]
    fn a_call_that_does_not_exist(rt: HostRuntime) -> Result<(), Fail> {
        let words = said(rt.alloc(), "jump 3")?;
        assert_eq!(rt; words.as_str(), "line 1: jump: expected the name of a call");
        Ok(())
    }
}
