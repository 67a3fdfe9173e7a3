// Each refusal at its edge, over the atoms: 0 is the top, 1 to 65,535 are leaves.
use crate::feature_graph::FeatureGraph;
use kinds::atoms::Atoms;
use std::test::Fail;

// What reading answers, with the number of a refusal.
fn read(graph: &mut FeatureGraph, bytes: &[u8]) -> Result<(), u8> {
    graph
        .read(&Atoms, bytes)
        .map_err(|misread| misread.number())
}

#[test]
fn the_last_eight_bytes(rt: HostRuntime) -> Result<(), Fail> {
    let mut graph = FeatureGraph::new(rt.alloc())?;
    assert_eq!(rt; read(&mut graph, &[0; 7]), Err(13));
    assert_eq!(rt; read(&mut graph, &[0; 8]), Ok(()));
    assert_eq!(rt; read(&mut graph, &[0; 9]), Err(14));
    assert_eq!(rt;
        read(&mut graph, &[0, 0, 64, 0, 0x80, 0xff, 0xff, 0xff]),
        Err(14)
    );
    assert_eq!(rt; read(&mut graph, &[1, 1, 0, 0, 0, 0, 0, 0]), Err(14));
    assert_eq!(rt; read(&mut graph, &[1, 0, 0, 0, 0, 0, 0, 0]), Err(15));
    assert_eq!(rt; read(&mut graph, &[9, 0, 0, 0, 0, 1, 0, 0, 0]), Err(15));
    Ok(())
}

#[test]
fn one_record(rt: HostRuntime) -> Result<(), Fail> {
    let mut graph = FeatureGraph::new(rt.alloc())?;
    assert_eq!(rt;
        read(
            &mut graph,
            &[0, 0, 1, 0, 0, 0, 0, 0, 0, 0, 0, 1, 0, 1, 0, 9, 0, 0, 0],
        ),
        Err(16)
    );
    assert_eq!(rt;
        read(
            &mut graph,
            &[
                0, 0, 0, 0, 0, 0, 0, 0, 1, 32, 0, 0, 0, 0, 1, 0, 1, 0, 12, 0, 0, 0,
            ],
        ),
        Err(17)
    );
    assert_eq!(rt;
        read(
            &mut graph,
            &[
                0, 0, 0, 0, 0, 0, 0, 0, 1, 31, 1, 0, 0, 0, 1, 0, 1, 0, 12, 0, 0, 0,
            ],
        ),
        Err(18)
    );
    assert_eq!(rt;
        read(
            &mut graph,
            &[
                1, 0, 0, 0, 0, 0, 0, 0, 1, 31, 0, 0, 0, 0, 1, 0, 1, 0, 12, 0, 0, 0,
            ],
        ),
        Err(19)
    );
    assert_eq!(rt;
        read(
            &mut graph,
            &[
                0, 0, 0, 0, 0, 0, 0, 0, 1, 31, 0, 0, 0, 0, 1, 0, 1, 0, 12, 0, 0, 0,
            ],
        ),
        Ok(())
    );
    Ok(())
}

#[test]
fn variables_and_order(rt: HostRuntime) -> Result<(), Fail> {
    let mut graph = FeatureGraph::new(rt.alloc())?;
    assert_eq!(rt; read(&mut graph, &[0, 0, 0, 0, 1, 0, 0, 0, 0, 0]), Err(18));
    assert_eq!(rt;
        read(
            &mut graph,
            &[0, 0, 0, 0, 0, 0, 0, 0, 0, 1, 0, 0, 0, 9, 0, 0, 0],
        ),
        Err(20)
    );
    assert_eq!(rt;
        read(
            &mut graph,
            &[
                7, 0, 0, 0, 0, 0, 0, 0, 0, 8, 0, 0, 0, 0, 0, 0, 0, 0, 1, 0, 0, 0, 2, 0, 2, 0, 18,
                0, 0, 0,
            ],
        ),
        Err(20)
    );
    assert_eq!(rt;
        read(
            &mut graph,
            &[
                7, 0, 0, 0, 0, 0, 0, 0, 0, 8, 0, 0, 0, 0, 0, 0, 0, 0, 0, 0, 1, 0, 2, 0, 2, 0, 18,
                0, 0, 0,
            ],
        ),
        Ok(())
    );
    Ok(())
}
